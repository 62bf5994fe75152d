// The lowest empty slot, and with it how many slots are empty (Document 01, The calls; Document 02, One).
ghost use Rattle.std.specs.Prelude.{◌≡◌, ◌≤◌, ◌<◌, IfSome};
ghost use Rattle.model.specs.Questions.{how_many, lowest};
ghost use Rattle.model.specs.Tables.{slots_of, empty_at, searched};
ghost use Rattle.rules.specs.Turned.{slot_in};

// What the search answers: the lowest empty slot, and how many are empty.
#[derive(Clone, Copy)]
pub struct Empties {
    pub slot: Option<usize>,
    pub count: usize,
}

#[tactic(auto, using(crate::proofs::LowestLaws::lowest_found, crate::proofs::LowestLaws::lowest_past))]
// The lowest empty slot below an end, where none before a place is empty; from that place on, one by one.
fn lowest_below<const W: usize>(pool: &[u8], from: usize, end: usize) -> Option<usize>
    requires wide { 5 ≤ W }
    requires within { (from ≤ end) × (end ≤ slots_of W pool.now) }
    requires so_far { lowest from (empty_at W pool.now) ≡ from }
    ensures slot { slot_in end result ≡ lowest end (empty_at W pool.now) }
    ensures inside { IfSome result (λ slot. slot < end) }
{
    for slot in from..end {
        if pool[slot * W] == 0 {
            return Some(slot);
        }
    }
    None
}

#[tactic(auto, using(crate::proofs::LowestLaws::lowest_longer), unfolding(model::specs::Questions::lowest_from))]
// The lowest empty slot; none where no slot is empty.
// Four slots a turn, which the compiler unrolls: of 1,024 slots, the last one empty, 3,099 instructions; one by one 6,169.
pub fn lowest_empty<const W: usize>(pool: &[u8]) -> Option<usize>
    requires { 5 ≤ W }
    ensures slot { slot_in (slots_of W pool.now) result ≡ lowest (slots_of W pool.now) (empty_at W pool.now) }
    ensures inside { IfSome result (λ slot. slot < slots_of W pool.now) }
{
    let slots = pool.len() / W;
    let turns = slots / 4;
    for t in 0..turns {
        if let Some(slot) = lowest_below::<W>(pool, t * 4, t * 4 + 4) {
            return Some(slot);
        }
    }
    lowest_below::<W>(pool, turns * 4, slots)
}

// The search: the lowest empty slot, and how many are empty, which the test of the slots has counted.
pub fn search<const W: usize>(pool: &[u8], count: usize) -> Empties
    requires wide { 5 ≤ W }
    requires counted { count ≡ how_many (slots_of W pool.now) (empty_at W pool.now) }
    ensures found { record { slot = slot_in (slots_of W pool.now) result.slot; count = result.count } ≡ searched W pool.now }
    ensures inside { IfSome result.slot (λ slot. slot < slots_of W pool.now) }
{
    let slot = lowest_empty::<W>(pool);
    Empties { slot, count }
}
