// A slot of seven bytes as one number (Document 02, Three).
ghost use Rattle.std.specs.Prelude.{◌≡◌, ◌&&◌, ◌+◌, ◌*◌, ◌≤◌, ◌<◌, cond, length, Some, None};
ghost use Rattle.model.specs.Questions.{how_many};
ghost use Rattle.model.specs.Tables.{slots_of, empty_at, all_slots_good};
ghost use Rattle.in_order.specs.Ordered.{all_numbers_good};
ghost use Rattle.wide.specs.Wide.{looked, wide_rooms, seven};

use scan::form;
use scan::form::{Number, SlotForm};
use scan::word::{eight_at, rooms_of};

// By kind, the bits that are looked at: all seven bytes of an empty slot, the first five of another.
const FULL: u64 = 0xFF_FFFF_FFFF;

static KEPT: [u64; 4] = [0xFF_FFFF_FFFF_FFFF, FULL, FULL, FULL];

// By kind, what may be added to what is looked at before a field reaches its top bit.
fn wide_rooms(s: u8, g: usize) -> [u64; 4]
    requires { (s ≤ 64) × (g ≤ 256) }
    ensures { result ≡ wide_rooms s g }
{
    let room = rooms_of(s, g);
    [room[0] + 65534 * 0x100_0000_0000, room[1], room[2], room[3]]
}

// A number, and what is looked at of it.
fn number_of(x: u64) -> Number
    ensures { (result.whole ≡ x) × (result.looked ≡ looked x) }
{
    Number {
        whole: x,
        looked: x & KEPT[(x % 4) as usize],
    }
}

// A slot of seven bytes as one number.
pub struct Seven;

impl SlotForm for Seven {
    ghost form = { seven };

    fn slots(pool: &[u8]) -> usize {
        pool.len() / 7
    }

    fn rooms_of(s: u8, g: usize) -> [u64; 4] {
        wide_rooms(s, g)
    }

    fn is_clear(seen: u64) -> bool {
        (seen & 0x100_0100_8080_80FC) == 0
    }

    // The byte that follows comes in above.
    fn within(pool: &[u8], slot: usize) -> Number {
        number_of(eight_at(pool, slot * 7))
    }

    fn alone(pool: &[u8], slot: usize) -> Number {
        let at = slot * 7;
        number_of(u64::from_le_bytes([
            pool[at],
            pool[at + 1],
            pool[at + 2],
            pool[at + 3],
            pool[at + 4],
            pool[at + 5],
            pool[at + 6],
            0,
        ]))
    }
}
