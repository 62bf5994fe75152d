// Held: 9 (Document 01, Why a call is turned down).
ghost use Rattle.std.specs.Prelude.{◌≡◌, false, ◌≤◌, ◌<◌};
ghost use Rattle.model.specs.Questions.{some};
ghost use Rattle.model.specs.Messages.{is_inc_dec};
ghost use Rattle.model.specs.Tables.{slots_of, message_at};
ghost use Rattle.model.specs.Calls.{held_refusal};
ghost use Rattle.rules.specs.Turned.{number_in};

use crate::slot::read_slot;
use model::Posted;
use rules::message::is_inc_dec;
use rules::refusal::{Refusal, when};

#[tactic(auto, using(crate::proofs::PointerLaws::no_inc_dec, crate::proofs::PointerLaws::other_pointer))]
// Whether a slot holds an INC_DEC from a to b for pointer p; most slots are of another pointer, so that is asked first.
fn holds<const W: usize>(pool: &[u8], slot: usize, a: u8, b: u8, p: u8) -> bool
    requires wide { 5 ≤ W }
    requires inside { slot < slots_of W pool.now }
    ensures { result ≡ is_inc_dec a b p (message_at W pool.now slot) }
{
    (pool[slot * W + 4] == p) && is_inc_dec(a, b, p, read_slot::<W>(pool, slot))
}

// Whether some slot below an end holds one, where none before a place does; from that place on, one by one.
fn held_below<const W: usize>(pool: &[u8], from: usize, end: usize, a: u8, b: u8, p: u8) -> bool
    requires wide { 5 ≤ W }
    requires within { (from ≤ end) × (end ≤ slots_of W pool.now) }
    requires so_far { some from (λ slot. is_inc_dec a b p (message_at W pool.now slot)) ≡ false }
    ensures { result ≡ some end (λ slot. is_inc_dec a b p (message_at W pool.now slot)) }
{
    for slot in from..end {
        if holds::<W>(pool, slot, a, b, p) {
            return true;
        }
    }
    false
}

// Whether some slot holds an INC_DEC from a to b for pointer p, with any third site.
// Four slots a turn, which the compiler unrolls: of 1,024 slots 2,860 instructions; one by one 5,159.
fn held<const W: usize>(pool: &[u8], a: u8, b: u8, p: u8) -> bool
    requires { 5 ≤ W }
    ensures { result ≡ some (slots_of W pool.now) (λ slot. is_inc_dec a b p (message_at W pool.now slot)) }
{
    let slots = pool.len() / W;
    let turns = slots / 4;
    for t in 0..turns {
        if held_below::<W>(pool, t * 4, t * 4 + 4, a, b, p) {
            return true;
        }
    }
    held_below::<W>(pool, turns * 4, slots, a, b, p)
}

// 9 for a DEC that an INC_DEC from its sender to its receiver holds back; for no other kind is the pool scanned.
pub fn held_refusal<const W: usize>(pool: &[u8], m: Posted) -> Result<(), Refusal>
    requires { 5 ≤ W }
    ensures { number_in result ≡ held_refusal (slots_of W pool.now) (message_at W pool.now) m }
{
    match m {
        Posted::Dec { from, to, pointer } => when(
            Refusal::Held,
            held::<W>(pool, from, to, pointer),
        ),
        _ => Ok(()),
    }
}
