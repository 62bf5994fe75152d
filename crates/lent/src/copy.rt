// Make copy (Document 01, The calls).
ghost use Rattle.std.specs.Prelude.{◌≡◌, ◌+◌, IfOk, length};
ghost use Rattle.model.specs.Parts.{desk_of};
ghost use Rattle.model.specs.Tables.{place};
ghost use Rattle.model.specs.Calls.{copy_number, copied, lowest_empty};
ghost use Rattle.rules.specs.Turned.{number_in};
ghost use Rattle.lent.specs.Desks.{Placed, counter_written};

use crate::cells::Cell;
use crate::change::Change;
use crate::desk::Lent;
use crate::pool::Slots;
use model::Posted;
use rules::answer::Accepted;
use rules::refusal::{Refusal, copy_refusal};
use tables::place::place_of;

impl<'a, C: Cell, P: Slots> Lent<'a, C, P> {
    #[tactic(auto, using(rules::proofs::TurnedLaws::err_first), unfolding(model::specs::Calls::copy_number, model::specs::Calls::copy_refusal, model::specs::Calls::copied))]
    // The sender's counter is to rise by 1; COPY(from, to) goes to the lowest empty slot; the value is that slot; how many were empty before is told.
    pub fn copy(&self, from: u8, to: u8, pointer: u8) -> Result<Change, Refusal>
        ensures number { number_in result ≡ copy_number (desk_of C.table P.pool) self.now from to pointer }
        ensures placed { IfOk result (Placed C.table P.pool self.now) }
        ensures named { IfOk result (λ c. (c.site ≡ from) × (c.pointer ≡ pointer) × (c.at ≡ place (length self.now.owners) from pointer)) }
        ensures values { IfOk result (λ c. (c.counter ≡ (desk_of C.table P.pool).counter self.now from pointer + 1) × (c.cell ≡ (desk_of C.table P.pool).cell self.now from pointer) × (c.slot ≡ lowest_empty (desk_of C.table P.pool) self.now)) }
        ensures outcome { IfOk result (λ c. counter_written C.table P.pool self.now c ≡ copied (desk_of C.table P.pool) self.now from to pointer) }
    {
        let p = pointer as usize;
        let g = self.owners.len();
        let empties = self.counted_front((from < self.sites) & (to < self.sites) & (p < g))?;
        let at = place_of(g, from, pointer);
        let counter = self.send[at];
        let cell = C::cell_in(g, self.receive, from, pointer);
        let found = self.pool.search(empties);
        let slot = copy_refusal(from, to, self.owners[p], cell, counter, found.slot)?;
        let posted = Posted::Copy { from, to, pointer };
        Ok(Change {
            site: from,
            pointer,
            at,
            counter: counter + 1,
            cell,
            slot,
            answer: Accepted::telling(found.count as u16, slot as u16, posted),
        })
    }
}
