// The pool of document 01: slots of five bytes, and Held (Document 01, What the host lends).
ghost use Rattle.std.specs.Prelude.{◌≡◌, ℕ, List};
ghost use Rattle.model.specs.Flat.{held_slots};
ghost use Rattle.model.proofs.FlatLaws.{held_slots_lem};

use crate::pool::Slots;
use model::Posted;
use rules::refusal::Refusal;
use scan::form::{all_slots_good, slots_tested};
use scan::word::Five;
use slots::count::{Counts, count};
use slots::entries::entries;
use slots::held::held_refusal;
use slots::lowest::{Empties, lowest_empty, search};
use slots::slot::read_slot;
use std::marker::Model;

// Its bytes.
#[derive(Drop)]
pub struct HeldSlots<'a> {
    bytes: &'a [u8],
}

impl<'a> Model for HeldSlots<'a> {
    ghost Value = { List ℕ };

    ghost view = { λ h. h.bytes.now };
}

impl<'a> HeldSlots<'a> {
    // The pool of these bytes.
    pub fn new(bytes: &'a [u8]) -> Self
        ensures { result ≡ bytes.now }
    {
        HeldSlots { bytes }
    }
}

impl<'a> Slots for HeldSlots<'a> {
    ghost pool = { held_slots };

    fn fits(&self, s: u8) -> bool {
        let n = self.bytes.len();
        (n % 5 == 0) & (n / 5 <= 1024)
    }

    fn all_good(&self, s: u8, g: usize) -> bool {
        all_slots_good::<Five>(s, g, self.bytes)
    }

    fn counted(&self, s: u8, g: usize) -> Option<usize> {
        slots_tested::<Five>(s, g, self.bytes)
    }

    fn slots(&self) -> usize {
        self.bytes.len() / 5
    }

    fn is_empty(&self, slot: usize) -> bool {
        let bytes = self.bytes;
        bytes[slot * 5] == 0
    }

    fn message(&self, slot: usize) -> Posted {
        read_slot::<5>(self.bytes, slot)
    }

    fn lowest_empty(&self) -> Option<usize> {
        lowest_empty::<5>(self.bytes)
    }

    fn search(&self, count: usize) -> Empties {
        search::<5>(self.bytes, count)
    }

    fn early(&self, s: u8, slot: usize) -> Result<(), Refusal> {
        held_refusal::<5>(self.bytes, self.message(slot))
    }

    fn count(&self, site: u8, owner: u8, p: u8) -> Counts {
        count::<5>(self.bytes, site, owner, p)
    }

    // Inlined as slots::entries is.
    #[inline(always)]
    fn entries(&self, p: u8) -> [[u32; 64]; 3] {
        entries::<5>(self.bytes, p)
    }

    ghost lawful = { held_slots_lem };
}
