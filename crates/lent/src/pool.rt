// The pool, of slots of five bytes or of seven: how either is read and tested (Document 01, What the host lends; Document 02, Three).
ghost use Rattle.std.specs.Prelude.{◌≡◌, ℕ, true, false, ◌≤◌, ◌<◌, List, cond, Some, None, IfSome};
ghost use Rattle.model.specs.Questions.{lowest, how_many};
ghost use Rattle.model.specs.Survey.{column};
ghost use Rattle.model.specs.Refusals.{◌when◌};
ghost use Rattle.model.specs.Parts.{Pool, LawfulPool};
ghost use Rattle.slots.specs.FirstSlots.{entries as entries_of};
ghost use Rattle.slots.specs.Counted.{counts_of};
ghost use Rattle.rules.specs.Turned.{number_in, slot_in};
ghost use Rattle.lent.specs.Desks.{searched_in};

use model::Posted;
use rules::refusal::Refusal;
use slots::count::Counts;
use slots::lowest::Empties;

// What a pool is, and what it counts and enters.
pub trait Slots: Drop {
    ghost pool: { Pool Self };

    // Whether its lengths are those for S.
    fn fits(&self, s: u8) -> bool
        requires { s ≤ 64 }
        ensures { result ≡ pool.fits s self.now };

    // Whether every slot is good.
    fn all_good(&self, s: u8, g: usize) -> bool
        requires { (s ≤ 64) × (g ≤ 256) }
        ensures { result ≡ pool.slots_good s g self.now };

    // How many slots are empty, where every slot is good.
    fn counted(&self, s: u8, g: usize) -> Option<usize>
        requires { (s ≤ 64) × (g ≤ 256) }
        ensures { result ≡ cond (pool.slots_good s g self.now) (Some (how_many (pool.slots self.now) (pool.empty self.now))) None };

    // How many slots there are.
    fn slots(&self) -> usize
        ensures { result ≡ pool.slots self.now };

    // Whether a slot is empty.
    fn is_empty(&self, slot: usize) -> bool
        requires { slot < pool.slots self.now }
        ensures { result ≡ pool.empty self.now slot };

    // The message of a slot.
    fn message(&self, slot: usize) -> Posted
        requires { slot < pool.slots self.now }
        ensures { result ≡ pool.message self.now slot };

    #[tactic(auto, using(slots::proofs::LowestLaws::lowest_found, slots::proofs::LowestLaws::lowest_past), unfolding(model::specs::Questions::lowest_from))]
    // The lowest empty slot: here one by one; a pool that has a faster way gives its own.
    fn lowest_empty(&self) -> Option<usize>
        ensures lowest { slot_in (pool.slots self.now) result ≡ lowest (pool.slots self.now) (pool.empty self.now) }
        ensures inside { IfSome result (λ slot. slot < pool.slots self.now) }
    {
        for slot in 0..self.slots() {
            if self.is_empty(slot) {
                return Some(slot);
            }
        }
        None
    }

    // The search: the lowest empty slot, and how many are empty, which the test of the slots has counted. A pool may give its own.
    fn search(&self, count: usize) -> Empties
        requires { count ≡ how_many (pool.slots self.now) (pool.empty self.now) }
        ensures found { record { slot = slot_in (pool.slots self.now) result.slot; count = result.count } ≡ searched_in pool self.now }
        ensures inside { IfSome result.slot (λ slot. slot < pool.slots self.now) }
    {
        let slot = self.lowest_empty();
        Empties { slot, count }
    }

    // Why a slot's message comes too early.
    fn early(&self, s: u8, slot: usize) -> Result<(), Refusal>
        requires { (g : ℕ) × (s ≤ 64) × (slot < pool.slots self.now) × (pool.empty self.now slot ≡ false) × (pool.fits s self.now ≡ true) × (pool.slots_good s g self.now ≡ true) }
        ensures { number_in result ≡ pool.early s self.now slot };

    // What its messages count in a share.
    fn count(&self, site: u8, owner: u8, p: u8) -> Counts
        requires { pool.slots self.now ≤ 1024 }
        ensures { result ≡ counts_of (pool.message self.now) (pool.slots self.now) site owner p };

    // What its messages enter in a sheet.
    fn entries(&self, p: u8) -> [[u32; 64]; 3]
        requires few { pool.slots self.now ≤ 1024 }
        requires columns { (slot : ℕ) → slot < pool.slots self.now → column (pool.message self.now slot) < 64 }
        ensures { result ≡ entries_of (pool.message self.now) p (pool.slots self.now) };

    ghost lawful: { LawfulPool pool };
}
