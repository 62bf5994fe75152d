// The count of holders of a pointer (Document 02, Five).
ghost use Rattle.std.specs.Prelude.{◌≡◌};
ghost use Rattle.word_cells.specs.WordCells.{count_holders as count_of};
ghost use Rattle.rules.specs.Turned.{told};

use crate::desk::Lent;
use crate::held_slots::HeldSlots;
use crate::pool::Slots;
use bits::bit::ones;
use model::Posted;
use rules::answer::Accepted;
use rules::refusal::Refusal;

impl<'a> Lent<'a, u64, HeldSlots<'a>> {
    #[tactic(auto, using(rules::proofs::TurnedLaws::err_first), unfolding(word_cells::specs::WordCells::count_holders, word_cells::specs::WordCells::count_number, word_cells::specs::WordCells::counted))]
    // How many sites hold the pointer: the ones of its word. It changes nothing.
    pub fn count_holders(&self, pointer: u8) -> Result<Accepted, Refusal>
        ensures { record { answer = told result; desk = self.now } ≡ count_of self.now pointer }
    {
        let p = pointer as usize;
        self.front(p < self.owners.len())?;
        Ok(Accepted::new(ones(self.receive[p]), Posted::Nothing))
    }
}
