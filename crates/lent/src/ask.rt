// Ask (Document 01, The calls).
ghost use Rattle.std.specs.Prelude.{◌≡◌};
ghost use Rattle.model.specs.Parts.{desk_of};
ghost use Rattle.model.specs.Calls.{ask as ask_of};
ghost use Rattle.rules.specs.Turned.{told};

use crate::cells::Cell;
use crate::desk::Lent;
use crate::pool::Slots;
use model::Posted;
use rules::answer::Accepted;
use rules::refusal::{Refusal, when};
use tables::place::place_of;

impl<'a, C: Cell, P: Slots> Lent<'a, C, P> {
    #[tactic(auto, using(rules::proofs::TurnedLaws::err_first), unfolding(model::specs::Calls::ask, model::specs::Calls::ask_number, model::specs::Calls::asked))]
    // 1 if the owner's counter is 0, else 0; it changes nothing.
    pub fn ask(&self, site: u8, pointer: u8) -> Result<Accepted, Refusal>
        ensures { record { answer = told result; desk = self.now } ≡ ask_of (desk_of C.table P.pool) self.now site pointer }
    {
        let p = pointer as usize;
        self.front((site < self.sites) & (p < self.owners.len()))?;
        let owner = self.owners[p];
        when(Refusal::NotOwner, site != owner)?;
        let counter = self.send[place_of(self.owners.len(), owner, pointer)];
        Ok(Accepted::new((counter == 0) as u16, Posted::Nothing))
    }
}
