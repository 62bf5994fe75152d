// What no call of C runs: each pool asked for its lowest empty slot, and a pool that leaves that, and its search, to the trait.
ghost use Rattle.std.specs.Prelude.{ℕ, List};
ghost use Rattle.model.specs.Flat.{held_slots};
ghost use Rattle.model.proofs.FlatLaws.{held_slots_lem};

use crate::held_slots::HeldSlots;
use crate::numbered_slots::NumberedSlots;
use crate::pool::Slots;
use model::Posted;
use rules::refusal::Refusal;
use slots::count::Counts;
use std::marker::Model;

// Slots of five bytes: one that is full, one that is empty, and so on.
const FIVE: [u8; 20] = [1, 0, 1, 0, 0, 0, 0, 0, 0, 0, 2, 1, 0, 0, 0, 0, 0, 0, 0, 0];

// Slots of seven bytes, the first two of them full.
const SEVEN: [u8; 21] = [
    1, 0, 1, 0, 0, 0, 0, 2, 1, 0, 0, 0, 0, 1, 0, 0, 0, 0, 0, 0, 0,
];

// A pool of five bytes that leaves both to the trait.
#[derive(Drop)]
struct Plain<'a> {
    held: HeldSlots<'a>,
}

impl<'a> Model for Plain<'a> {
    ghost Value = { List ℕ };

    ghost view = { λ p. p.held };
}

impl<'a> Slots for Plain<'a> {
    ghost pool = { held_slots };

    fn fits(&self, s: u8) -> bool {
        self.held.fits(s)
    }

    fn all_good(&self, s: u8, g: usize) -> bool {
        self.held.all_good(s, g)
    }

    fn counted(&self, s: u8, g: usize) -> Option<usize> {
        self.held.counted(s, g)
    }

    fn slots(&self) -> usize {
        self.held.slots()
    }

    fn is_empty(&self, slot: usize) -> bool {
        self.held.is_empty(slot)
    }

    fn message(&self, slot: usize) -> Posted {
        self.held.message(slot)
    }

    fn early(&self, s: u8, slot: usize) -> Result<(), Refusal> {
        self.held.early(s, slot)
    }

    fn count(&self, site: u8, owner: u8, p: u8) -> Counts {
        self.held.count(site, owner, p)
    }

    fn entries(&self, p: u8) -> [[u32; 64]; 3] {
        self.held.entries(p)
    }

    ghost lawful = { held_slots_lem };
}

#[test]
fn lowest_of_five(rt: HostRuntime) {
    assert_eq!(rt; HeldSlots::new(&FIVE).lowest_empty(), Some(1));
    assert_eq!(rt; HeldSlots::new(&FIVE[0..5]).lowest_empty(), None);
    assert_eq!(rt; HeldSlots::new(&FIVE[0..0]).lowest_empty(), None);
}

#[test]
fn lowest_of_seven(rt: HostRuntime) {
    assert_eq!(rt;
        NumberedSlots::new(&SEVEN, &[], &[]).lowest_empty(),
        Some(2)
    );
    assert_eq!(rt;
        NumberedSlots::new(&SEVEN[0..14], &[], &[]).lowest_empty(),
        None
    );
}

#[test]
fn left_to_the_trait(rt: HostRuntime) {
    for (bytes, slot, empty) in [(&FIVE[0..20], Some(1), 2), (&FIVE[0..5], None, 0)] {
        let pool = Plain {
            held: HeldSlots::new(bytes),
        };
        assert_eq!(rt; pool.lowest_empty(), slot);
        let counted = pool.counted(2, 1);
        assert_eq!(rt; counted, Some(empty));
        if let Some(count) = counted {
            let found = pool.search(count);
            assert_eq!(rt; found.slot, slot);
            assert_eq!(rt; found.count, empty);
        }
    }
}
