// What an opening is turned down for (Document 01, What the host lends).
ghost use Rattle.std.specs.Prelude.{◌≡◌, IfOk, true};
ghost use Rattle.model.specs.Parts.{desk_of};
ghost use Rattle.model.specs.Calls.{open_refusal};
ghost use Rattle.rules.specs.Turned.{number_in};
ghost use Rattle.lent.specs.Desks.{Openable};

use crate::cells::Cell;
use crate::desk::Lent;
use crate::pool::Slots;
use rules::refusal::{Refusal, when};
use scan::bytes::all_below;

impl<'a, C: Cell, P: Slots> Lent<'a, C, P> {
    #[tactic(auto, using(rules::proofs::TurnedLaws::err_first, crate::proofs::PassedLaws::openable), unfolding(model::specs::Calls::open_refusal))]
    // 1, and 2 of the owners: it does not read what the other parts hold.
    pub fn opening(&self) -> Result<(), Refusal>
        ensures number { number_in result ≡ open_refusal (desk_of C.table P.pool) self.now }
        ensures openable { IfOk result (λ _. Openable C.table P.pool self.now) }
    {
        when(Refusal::BadShape, !self.shaped())?;
        when(Refusal::BadTable, !all_below(self.owners, self.sites))?;
        Ok(())
    }
}
