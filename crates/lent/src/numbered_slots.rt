// The pool of the in-order desk: slots of seven bytes, and the next numbers of each ordered pair of sites (Document 02, Three).
ghost use Rattle.std.specs.Prelude.{◌≡◌, ℕ, List};
ghost use Rattle.in_order.specs.Ordered.{NumberedPool, numbered_pool, in_order_slots};
ghost use Rattle.in_order.proofs.OrderedLaws.{in_order_slots_lem};

use crate::pool::Slots;
use model::Posted;
use numbered::pairs::pair_of;
use numbered::slot::number_at;
use rules::refusal::{Refusal, when};
use scan::form::{all_slots_good, slots_tested};
use slots::count::{Counts, count};
use slots::entries::entries;
use slots::lowest::{Empties, lowest_empty, search};
use slots::slot::read_slot;
use std::marker::Model;
use wide::word::Seven;

// Its bytes, and the next numbers to post and to receive.
#[derive(Drop)]
pub struct NumberedSlots<'a> {
    bytes: &'a [u8],
    to_post: &'a [u16],
    to_receive: &'a [u16],
}

impl<'a> Model for NumberedSlots<'a> {
    ghost Value = { NumberedPool };

    ghost view = { λ n. numbered_pool n.bytes.now n.to_post.now n.to_receive.now };
}

impl<'a> NumberedSlots<'a> {
    // The pool of these bytes and numbers.
    pub fn new(bytes: &'a [u8], to_post: &'a [u16], to_receive: &'a [u16]) -> Self
        ensures { result ≡ numbered_pool bytes.now to_post.now to_receive.now }
    {
        NumberedSlots {
            bytes,
            to_post,
            to_receive,
        }
    }
}

impl<'a> Slots for NumberedSlots<'a> {
    ghost pool = { in_order_slots };

    fn fits(&self, s: u8) -> bool {
        let n = self.bytes.len();
        let pairs = (s as usize) * (s as usize);
        (n % 7 == 0)
            & (n / 7 <= 1024)
            & (self.to_post.len() == pairs)
            & (self.to_receive.len() == pairs)
    }

    fn all_good(&self, s: u8, g: usize) -> bool {
        all_slots_good::<Seven>(s, g, self.bytes)
    }

    fn counted(&self, s: u8, g: usize) -> Option<usize> {
        slots_tested::<Seven>(s, g, self.bytes)
    }

    fn slots(&self) -> usize {
        self.bytes.len() / 7
    }

    fn is_empty(&self, slot: usize) -> bool {
        let bytes = self.bytes;
        bytes[slot * 7] == 0
    }

    fn message(&self, slot: usize) -> Posted {
        read_slot::<7>(self.bytes, slot)
    }

    fn lowest_empty(&self) -> Option<usize> {
        lowest_empty::<7>(self.bytes)
    }

    fn search(&self, count: usize) -> Empties {
        search::<7>(self.bytes, count)
    }

    // 21: the slot's number is not its pair's next to receive.
    fn early(&self, s: u8, slot: usize) -> Result<(), Refusal> {
        let due = self.to_receive[pair_of(s, self.message(slot))];
        when(Refusal::OutOfOrder, number_at(self.bytes, slot) != due)
    }

    fn count(&self, site: u8, owner: u8, p: u8) -> Counts {
        count::<7>(self.bytes, site, owner, p)
    }

    fn entries(&self, p: u8) -> [[u32; 64]; 3] {
        entries::<7>(self.bytes, p)
    }

    ghost lawful = { in_order_slots_lem };
}
