// Receive (Document 01, The calls).
ghost use Rattle.std.specs.Prelude.{◌≡◌, ◌<◌, IfOk, false, ltb, length};
ghost use Rattle.model.specs.Parts.{desk_of};
ghost use Rattle.model.specs.Tables.{place};
ghost use Rattle.model.specs.Calls.{receive_number, received, counter_there, cell_there};
ghost use Rattle.rules.specs.Turned.{number_in};
ghost use Rattle.model.specs.Messages.{receiver as receiver_of, pointer_of as named_by, counter_after, cell_after};
ghost use Rattle.model.specs.Laws.{Inside};
ghost use Rattle.model.proofs.ReceiveLaws.{slot_number};
ghost use Rattle.lent.specs.Desks.{Passed, Placed, all_written};

use crate::cells::Cell;
use crate::change::Change;
use crate::desk::Lent;
use crate::pool::Slots;
use model::Posted;
use rules::answer::Accepted;
use rules::effect::decide;
use rules::message::{pointer_of, receiver};
use rules::refusal::{Refusal, when};
use tables::place::place_of;

impl<'a, C: Cell, P: Slots> Lent<'a, C, P> {
    #[tactic(auto, using(rules::proofs::TurnedLaws::err_first))]
    // 1, 2, 3, 8: the message that there is to receive.
    fn full_slot(&self, slot: u16) -> Result<Posted, Refusal>
        ensures number { number_in result ≡ slot_number (desk_of C.table P.pool) self.now slot }
        ensures message { IfOk result (λ m. m ≡ (desk_of C.table P.pool).message self.now slot) }
        ensures passed { IfOk result (λ m. Passed C.table P.pool self.now (ltb slot (P.pool.slots self.now.pool))) }
        ensures used { IfOk result (λ m. P.pool.empty self.now.pool slot ≡ false) }
        ensures inside { IfOk result (Inside self.now.S (length self.now.owners)) }
        ensures known { IfOk result (λ m. (receiver_of m < self.now.S) × (named_by m < length self.now.owners)) }
    {
        let i = slot as usize;
        self.front(i < self.pool.slots())?;
        when(Refusal::EmptySlot, self.pool.is_empty(i))?;
        Ok(self.pool.message(i))
    }

    #[tactic(auto, using(rules::proofs::TurnedLaws::err_first, crate::proofs::ReceiveLaws::receive_split))]
    // The receiver's counter and cell are to change as the message says; the reply takes the slot, or it becomes empty; the value is the slot.
    pub fn receive(&self, slot: u16) -> Result<Change, Refusal>
        ensures number { number_in result ≡ receive_number (desk_of C.table P.pool) self.now slot }
        ensures placed { IfOk result (Placed C.table P.pool self.now) }
        ensures handled { IfOk result (λ c. Inside self.now.S (length self.now.owners) (P.pool.message self.now.pool c.slot)) }
        ensures named { IfOk result (λ c. (c.site ≡ receiver_of (P.pool.message self.now.pool slot)) × (c.pointer ≡ named_by (P.pool.message self.now.pool slot)) × (c.at ≡ place (length self.now.owners) (receiver_of (P.pool.message self.now.pool slot)) (named_by (P.pool.message self.now.pool slot)))) }
        ensures values { IfOk result (λ c. (c.counter ≡ counter_after (P.pool.message self.now.pool slot) (counter_there (desk_of C.table P.pool) self.now slot)) × (c.cell ≡ cell_after (P.pool.message self.now.pool slot) (cell_there (desk_of C.table P.pool) self.now slot)) × (c.slot ≡ slot)) }
        ensures outcome { IfOk result (λ c. all_written C.table P.pool self.now c ≡ received (desk_of C.table P.pool) self.now slot) }
    {
        let i = slot as usize;
        let m = self.full_slot(slot)?;
        let g = self.owners.len();
        let site = receiver(m);
        let pointer = pointer_of(m);
        let at = place_of(g, site, pointer);
        let cell = C::cell_in(g, self.receive, site, pointer);
        let early = self.pool.early(self.sites, i);
        let e = decide(m, self.owners[pointer as usize], cell, self.send[at], early)?;
        Ok(Change {
            site,
            pointer,
            at,
            counter: e.counter,
            cell: e.cell,
            slot: i,
            answer: Accepted::new(slot, e.posted),
        })
    }
}
