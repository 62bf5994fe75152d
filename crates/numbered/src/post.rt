// A message is posted with its pair's next number (Document 02, Three).
ghost use Rattle.std.specs.Prelude.{◌≡◌, ◌+◌, ◌*◌, ◌≤◌, length};
ghost use Rattle.std.proofs.lemmas.List.Edits.{sets};
ghost use Rattle.in_order.specs.Ordered.{numbered_slot, number_for, advanced};
ghost use Rattle.numbered.specs.Pairs.{HasPair};

use crate::pairs::{advance, number_for};
use crate::slot::write_slot;
use model::Posted;

// A message into a slot, with its pair's next number to post, which advances; none makes the slot empty.
pub fn post(s: u8, pool: &mut [u8], numbers: &mut [u16], slot: usize, m: Posted)
    requires slot_in_bounds { slot * 7 + 7 ≤ length pool.old }
    requires m_in_bounds { HasPair s numbers.old m }
    ensures pool_after { pool.new ≡ sets pool.old (slot * 7) (numbered_slot m (number_for s numbers.old m)) }
    ensures numbers_after { numbers.new ≡ advanced s numbers.old m }
{
    let number = number_for(s, numbers, m);
    write_slot(pool, slot, m, number);
    advance(s, numbers, m);
}
