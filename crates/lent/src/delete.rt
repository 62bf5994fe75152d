// Delete (Document 01, The calls).
ghost use Rattle.std.specs.Prelude.{◌≡◌, IfOk, length};
ghost use Rattle.model.specs.Parts.{desk_of};
ghost use Rattle.model.specs.Tables.{place};
ghost use Rattle.model.specs.Calls.{delete_number, deleted, lowest_empty};
ghost use Rattle.rules.specs.Turned.{number_in};
ghost use Rattle.lent.specs.Desks.{Placed, cell_written};

use crate::cells::Cell;
use crate::change::Change;
use crate::desk::Lent;
use crate::pool::Slots;
use model::Posted;
use rules::answer::Accepted;
use rules::refusal::{Refusal, delete_refusal};
use tables::place::place_of;

impl<'a, C: Cell, P: Slots> Lent<'a, C, P> {
    #[tactic(auto, using(rules::proofs::TurnedLaws::err_first), unfolding(model::specs::Calls::delete_number, model::specs::Calls::delete_refusal, model::specs::Calls::deleted))]
    // The receive cell is to be 0; DEC(site, owner) goes to the lowest empty slot; the value is that slot; how many were empty before is told.
    pub fn delete(&self, site: u8, pointer: u8) -> Result<Change, Refusal>
        ensures number { number_in result ≡ delete_number (desk_of C.table P.pool) self.now site pointer }
        ensures placed { IfOk result (Placed C.table P.pool self.now) }
        ensures named { IfOk result (λ c. (c.site ≡ site) × (c.pointer ≡ pointer) × (c.at ≡ place (length self.now.owners) site pointer)) }
        ensures values { IfOk result (λ c. (c.counter ≡ (desk_of C.table P.pool).counter self.now site pointer) × (c.cell ≡ 0) × (c.slot ≡ lowest_empty (desk_of C.table P.pool) self.now)) }
        ensures outcome { IfOk result (λ c. cell_written C.table P.pool self.now c ≡ deleted (desk_of C.table P.pool) self.now site pointer) }
    {
        let p = pointer as usize;
        let g = self.owners.len();
        let empties = self.counted_front((site < self.sites) & (p < g))?;
        let at = place_of(g, site, pointer);
        let counter = self.send[at];
        let cell = C::cell_in(g, self.receive, site, pointer);
        let owner = self.owners[p];
        let found = self.pool.search(empties);
        let slot = delete_refusal(site, owner, cell, counter, found.slot)?;
        let posted = Posted::Dec {
            from: site,
            to: owner,
            pointer,
        };
        Ok(Change {
            site,
            pointer,
            at,
            counter,
            cell: 0,
            slot,
            answer: Accepted::telling(found.count as u16, slot as u16, posted),
        })
    }
}
