// The share of a site (Document 01, Share and sheet).
ghost use Rattle.std.specs.Prelude.{◌≡◌};
ghost use Rattle.model.specs.Parts.{desk_of};
ghost use Rattle.model.specs.Survey.{share as share_of};
ghost use Rattle.lent.specs.Desks.{share_told};

use crate::cells::Cell;
use crate::desk::Lent;
use crate::pool::Slots;
use rules::refusal::{Refusal, when};
use slots::weight::balance;

impl<'a, C: Cell, P: Slots> Lent<'a, C, P> {
    #[tactic(auto, using(rules::proofs::TurnedLaws::err_first), unfolding(model::specs::Survey::share, model::specs::Survey::share_number))]
    // Its receive cell, plus DECs from it to the owner, plus COPYs from the owner to it, minus INC_DECs from it to the owner; 1, 2, 3, then 11.
    pub fn share(&self, site: u8, pointer: u8) -> Result<i32, Refusal>
        ensures { share_told result ≡ share_of (desk_of C.table P.pool) self.now site pointer }
    {
        let p = pointer as usize;
        self.front((site < self.sites) & (p < self.owners.len()))?;
        let owner = self.owners[p];
        when(Refusal::IsOwner, site == owner)?;
        let cell = C::cell_in(self.owners.len(), self.receive, site, pointer);
        let pooled = self.pool.count(site, owner, pointer);
        Ok(balance((cell as u32) + pooled.plus, pooled.minus))
    }
}
