// A message: its slot bytes, its receiver and its pointer (Document 01, What the host lends).
ghost use Rattle.std.specs.Prelude.{◌≡◌};
ghost use Rattle.model.specs.Messages.{slot_of, is_nothing, sender as sender_of, receiver as receiver_of, pointer_of, is_inc_dec};

use model::Posted;

// A message as slot bytes: kind, from, to, third, pointer. No From: Posted is of model, which has no functions.
pub fn slot_bytes(m: Posted) -> [u8; 5]
    ensures { result ≡ slot_of m }
{
    match m {
        Posted::Copy { from, to, pointer } => [1, from, to, 0, pointer],
        Posted::Dec { from, to, pointer } => [2, from, to, 0, pointer],
        Posted::IncDec {
            from,
            to,
            third,
            pointer,
        } => [3, from, to, third, pointer],
        Posted::Nothing => [0, 0, 0, 0, 0],
    }
}

// Whether there is none.
pub fn is_nothing(m: Posted) -> bool
    ensures { result ≡ is_nothing m }
{
    matches!(m, Posted::Nothing)
}

// The site that it came from.
pub fn sender(m: Posted) -> u8
    ensures { result ≡ sender_of m }
{
    match m {
        Posted::Copy { from, .. } | Posted::Dec { from, .. } | Posted::IncDec { from, .. } => from,
        Posted::Nothing => 0,
    }
}

// The site that receives it.
pub fn receiver(m: Posted) -> u8
    ensures { result ≡ receiver_of m }
{
    match m {
        Posted::Copy { to, .. } | Posted::Dec { to, .. } | Posted::IncDec { to, .. } => to,
        Posted::Nothing => 0,
    }
}

// Its pointer.
pub fn pointer_of(m: Posted) -> u8
    ensures { result ≡ pointer_of m }
{
    match m {
        Posted::Copy { pointer, .. }
        | Posted::Dec { pointer, .. }
        | Posted::IncDec { pointer, .. } => pointer,
        Posted::Nothing => 0,
    }
}

// Whether it is an INC_DEC from a to b for pointer p, with any third site.
pub fn is_inc_dec(a: u8, b: u8, p: u8, m: Posted) -> bool
    ensures { result ≡ is_inc_dec a b p m }
{
    match m {
        Posted::IncDec {
            from,
            to,
            third: _,
            pointer,
        } => (from == a) & (to == b) & (pointer == p),
        _ => false,
    }
}
