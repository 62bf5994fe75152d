// The sheet of a pointer (Document 01, Share and sheet).
ghost use Rattle.std.specs.Prelude.{◌≡◌};
ghost use Rattle.model.specs.Parts.{desk_of};
ghost use Rattle.model.specs.Survey.{sheet_number, sheet as sheet_of};
ghost use Rattle.rules.specs.Turned.{number_in};
ghost use Rattle.lent.specs.Desks.{rows_told};

use crate::cells::Cell;
use crate::desk::Lent;
use crate::pool::Slots;
use rules::refusal::Refusal;

impl<'a, C: Cell, P: Slots> Lent<'a, C, P> {
    #[tactic(auto, using(rules::proofs::TurnedLaws::err_first), unfolding(model::specs::Survey::sheet, model::specs::Survey::sheet_number))]
    // Three rows, one for each message kind, of 64 columns, one for each site; 1, 2, 3. Inlined as slots::entries is.
    #[inline(always)]
    pub fn sheet(&self, pointer: u8) -> Result<[[u32; 64]; 3], Refusal>
        ensures number { number_in result ≡ sheet_number (desk_of C.table P.pool) self.now pointer }
        ensures rows { rows_told result ≡ sheet_of (desk_of C.table P.pool) self.now pointer }
    {
        self.front((pointer as usize) < self.owners.len())?;
        Ok(self.pool.entries(pointer))
    }
}
