// Slots of seven bytes: the five of a message, then its number, high byte first (Document 02, Three).
ghost use Rattle.std.specs.Prelude.{◌≡◌, ◌+◌, ◌*◌, ◌≤◌, length};
ghost use Rattle.std.proofs.lemmas.List.Edits.{sets};
ghost use Rattle.in_order.specs.Ordered.{number_at, numbered_slot};

use model::Posted;
use rules::message::slot_bytes;

// The number of a slot of the pool.
pub fn number_at(pool: &[u8], slot: usize) -> u16
    requires { slot * 7 + 7 ≤ length pool.now }
    ensures { result ≡ number_at pool.now slot }
{
    let at = slot * 7;
    u16::from_be_bytes([pool[at + 5], pool[at + 6]])
}

// A message and its number into a slot of the pool; no message and 0 make the slot empty.
pub fn write_slot(pool: &mut [u8], slot: usize, message: Posted, number: u16)
    requires { slot * 7 + 7 ≤ length pool.old }
    ensures { pool.new ≡ sets pool.old (slot * 7) (numbered_slot message number) }
{
    let start = slot * 7;
    [
        pool[start],
        pool[start + 1],
        pool[start + 2],
        pool[start + 3],
        pool[start + 4],
    ] = slot_bytes(message);
    [pool[start + 5], pool[start + 6]] = number.to_be_bytes();
}
