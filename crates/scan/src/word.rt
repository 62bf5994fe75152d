// Eight bytes as one number, and so a slot of five (Document 01, What the host lends).
ghost use Rattle.std.specs.Prelude.{◌≡◌, ◌+◌, ◌*◌, ◌%◌, ◌≤◌, ◌<◌, cond, length, Some, None};
ghost use Rattle.model.specs.Questions.{how_many};
ghost use Rattle.model.specs.Tables.{slots_of, empty_at, all_slots_good};
ghost use Rattle.scan.specs.Form.{five};
ghost use Rattle.scan.specs.Word.{packed, eight_at, rooms};

use crate::form;
use crate::form::{Number, SlotForm};

// Five fields as one number, the first lowest.
fn pack(kind: u64, from: u64, to: u64, third: u64, pointer: u64) -> u64
    requires { (kind < 256) × (from < 256) × (to < 256) × (third < 256) × (pointer < 512) }
    ensures { result ≡ packed kind from to third pointer }
{
    kind + from * 256 + to * 65536 + third * 16777216 + pointer * 4294967296
}

// The eight bytes from a place on as one number.
pub fn eight_at(bytes: &[u8], at: usize) -> u64
    requires { at + 8 ≤ length bytes.now }
    ensures { result ≡ eight_at bytes.now at }
{
    u64::from_le_bytes([
        bytes[at],
        bytes[at + 1],
        bytes[at + 2],
        bytes[at + 3],
        bytes[at + 4],
        bytes[at + 5],
        bytes[at + 6],
        bytes[at + 7],
    ])
}

// By kind, what may be added to each field of a good slot before it reaches the field's top bit.
pub fn rooms_of(s: u8, g: usize) -> [u64; 4]
    requires { (s ≤ 64) × (g ≤ 256) }
    ensures { result ≡ rooms s g }
{
    let site = 128 - (s as u64);
    let pointer = 256 - (g as u64);
    let named = pack(0, site, site, 127, pointer);
    [
        pack(0, 127, 127, 127, 255),
        named,
        named,
        pack(0, site, site, site, pointer),
    ]
}

// All of a number of five bytes is looked at.
fn number_of(x: u64) -> Number
    requires { x < 1099511627776 }
    ensures { (result.whole ≡ x) × (result.looked ≡ x) }
{
    Number {
        whole: x,
        looked: x,
    }
}

// A slot of five bytes as one number.
pub struct Five;

impl SlotForm for Five {
    ghost form = { five };

    fn slots(pool: &[u8]) -> usize {
        pool.len() / 5
    }

    fn rooms_of(s: u8, g: usize) -> [u64; 4] {
        rooms_of(s, g)
    }

    fn is_clear(seen: u64) -> bool {
        (seen & 0x100_8080_80FC) == 0
    }

    fn within(pool: &[u8], slot: usize) -> Number {
        number_of(eight_at(pool, slot * 5) % 0x100_0000_0000)
    }

    fn alone(pool: &[u8], slot: usize) -> Number {
        let at = slot * 5;
        number_of(u64::from_le_bytes([
            pool[at],
            pool[at + 1],
            pool[at + 2],
            pool[at + 3],
            pool[at + 4],
            0,
            0,
            0,
        ]))
    }
}
