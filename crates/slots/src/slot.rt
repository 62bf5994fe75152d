// Slots of the pool, of the five bytes of a message and what follows them: kind, from, to, third, pointer (Document 01, What the host lends).
ghost use Rattle.std.specs.Prelude.{◌≡◌, ◌+◌, ◌*◌, ◌≤◌, length};
ghost use Rattle.std.proofs.lemmas.List.Edits.{sets};
ghost use Rattle.model.specs.Messages.{slot_of, message_of};
ghost use Rattle.model.specs.Tables.{message_at};

use model::Posted;
use rules::message::slot_bytes;

#[tactic(auto, unfolding(model::specs::Messages::message_of))]
// Slot bytes as a message; a kind above 3 is none. No From: Posted is of model, which has no functions.
pub fn message_of(kind: u8, from: u8, to: u8, third: u8, pointer: u8) -> Posted
    ensures { result ≡ message_of kind from to third pointer }
{
    match kind {
        1 => Posted::Copy { from, to, pointer },
        2 => Posted::Dec { from, to, pointer },
        3 => Posted::IncDec {
            from,
            to,
            third,
            pointer,
        },
        _ => Posted::Nothing,
    }
}

// The message of a slot of the pool; byte by byte, since the pattern of a slice would want an arm for any other length.
pub fn read_slot<const W: usize>(pool: &[u8], slot: usize) -> Posted
    requires wide { 5 ≤ W }
    requires inside { slot * W + W ≤ length pool.now }
    ensures { result ≡ message_at W pool.now slot }
{
    let at = slot * W;
    message_of(
        pool[at],
        pool[at + 1],
        pool[at + 2],
        pool[at + 3],
        pool[at + 4],
    )
}

// A message into a slot of the pool; none makes the slot empty.
pub fn write_slot(pool: &mut [u8], slot: usize, message: Posted)
    requires { slot * 5 + 5 ≤ length pool.old }
    ensures { pool.new ≡ sets pool.old (slot * 5) (slot_of message) }
{
    let start = slot * 5;
    [
        pool[start],
        pool[start + 1],
        pool[start + 2],
        pool[start + 3],
        pool[start + 4],
    ] = slot_bytes(message);
}
