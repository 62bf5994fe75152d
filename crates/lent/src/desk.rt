// The tests that begin every call and every question (Document 01, Why a call is turned down).
ghost use Rattle.std.specs.Prelude.{◌≡◌, ℕ, true, ◌≤◌, ◌<◌, List, IfOk};
ghost use Rattle.model.specs.Parts.{desk_of};
ghost use Rattle.model.specs.Tables.{Lent as Parts, lent};
ghost use Rattle.model.specs.Calls.{lent_refusal, front as front_of, empty_slots};
ghost use Rattle.model.proofs.TablesLaws.{tables_refusal as tables_number};
ghost use Rattle.rules.specs.Turned.{number_in};
ghost use Rattle.lent.specs.Desks.{Passed};

use crate::cells::Cell;
use crate::pool::Slots;
use rules::refusal::{Refusal, when};
use scan::bytes::all_below;
use std::marker::Model;
use tables::shape::sizes_good;

// S, owners, send table, receive table, pool.
#[derive(Drop)]
pub struct Lent<'a, C, P> {
    pub(crate) sites: u8,
    pub(crate) owners: &'a [u8],
    pub(crate) send: &'a [u16],
    pub(crate) receive: &'a [C],
    pub(crate) pool: P,
}

impl<'a, C, P> Model for Lent<'a, C, P> {
    ghost Value = { Parts (List C) P };

    ghost view = { λ d. lent d.sites d.owners.now d.send.now d.receive.now d.pool };
}

impl<'a, C: Cell, P: Slots> Lent<'a, C, P> {
    // What is lent.
    pub fn new(sites: u8, owners: &'a [u8], send: &'a [u16], receive: &'a [C], pool: P) -> Self
        ensures { result ≡ lent sites owners.now send.now receive.now pool }
    {
        Lent {
            sites,
            owners,
            send,
            receive,
            pool,
        }
    }

    // Whether S, G, the lengths and the slot count are good.
    pub(crate) fn shaped(&self) -> bool
        ensures { result ≡ (desk_of C.table P.pool).shaped self.now }
    {
        let g = self.owners.len();
        if !sizes_good(self.sites, g) {
            return false;
        }
        (self.send.len() == (self.sites as usize) * g)
            & (C::fits(self.sites, g, self.receive) & self.pool.fits(self.sites))
    }

    // 1, 2 of all that is lent but the slots.
    fn tables_refusal(&self) -> Result<(), Refusal>
        ensures { number_in result ≡ tables_number C.table P.pool self.now }
    {
        when(Refusal::BadShape, !self.shaped())?;
        let good = all_below(self.owners, self.sites) & C::all_good(self.sites, self.receive);
        when(Refusal::BadTable, !good)
    }

    #[tactic(auto, using(rules::proofs::TurnedLaws::err_first, model::proofs::TablesLaws::slots_last))]
    // 1, 2 of all that is lent.
    pub fn refusal(&self) -> Result<(), Refusal>
        ensures { number_in result ≡ lent_refusal (desk_of C.table P.pool) self.now }
    {
        self.tables_refusal()?;
        let good = self.pool.all_good(self.sites, self.owners.len());
        when(Refusal::BadTable, !good)
    }

    #[tactic(auto, using(rules::proofs::TurnedLaws::err_first, crate::proofs::PassedLaws::passed), unfolding(model::specs::Calls::front))]
    // 1, 2, 3; named: whether the sites, the pointer and the slot that are named are in range.
    pub fn front(&self, named: bool) -> Result<(), Refusal>
        ensures number { number_in result ≡ front_of (desk_of C.table P.pool) self.now named }
        ensures passed { IfOk result (λ _. Passed C.table P.pool self.now named) }
    {
        self.refusal()?;
        when(Refusal::BadName, !named)?;
        Ok(())
    }

    #[tactic(auto, using(rules::proofs::TurnedLaws::err_first, model::proofs::TablesLaws::slots_last), unfolding(model::specs::Calls::front))]
    // 1, 2, 3, and how many slots are empty (Document 02, One).
    pub fn counted_front(&self, named: bool) -> Result<usize, Refusal>
        ensures number { number_in result ≡ front_of (desk_of C.table P.pool) self.now named }
        ensures empties { IfOk result (λ n. n ≡ empty_slots (desk_of C.table P.pool) self.now) }
        ensures passed { IfOk result (λ _. Passed C.table P.pool self.now named) }
    {
        self.tables_refusal()?;
        let empties = self
            .pool
            .counted(self.sites, self.owners.len())
            .ok_or(Refusal::BadTable)?;
        when(Refusal::BadName, !named)?;
        Ok(empties)
    }
}
