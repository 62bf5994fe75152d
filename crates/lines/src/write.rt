// A call as a line, and an answer as a line (Document 01, Lines).
ghost use Rattle.std.specs.Prelude.{◌≡◌, [], ◌∷◌, ◌++◌, ◌+◌, ◌*◌, ◌≤◌, length};
ghost use Rattle.std.proofs.lemmas.List.Edits.{sets};
ghost use Rattle.model.specs.Lines.{newline, digits_of, bytes_of, write_call};
ghost use Rattle.model.specs.Transcript.{answer_bytes, answer_line};
ghost use Rattle.rules.specs.Turned.{told, told_by};

use crate::code::Code;
use crate::digit::digit_of;
use model::{Call, Posted};
use rules::answer::{Accepted, Answer, Told};
use rules::message::slot_bytes;
use rules::refusal::Refusal;

#[tactic(auto, unfolding(model::specs::Lines::digits_of))]
// A byte as two digits, at a place of a text.
fn write_byte(text: &mut [u8], at: usize, byte: u8)
    requires { at + 2 ≤ length text.old }
    ensures { text.new ≡ sets text.old at (digits_of (byte ∷ [])) }
{
    text[at] = digit_of(byte / 16);
    text[at + 1] = digit_of(byte % 16);
}

#[tactic(auto, using(crate::proofs::StoreLaws::digits_more, crate::proofs::StoreLaws::digits_done))]
// Bytes as digits, at a place of a text.
fn write_bytes(text: &mut [u8], at: usize, bytes: &[u8])
    requires { at + length bytes.now * 2 ≤ length text.old }
    ensures { text.new ≡ sets text.old at (digits_of bytes.now) }
{
    for (i, byte) in bytes.iter().enumerate() {
        write_byte(text, at + i * 2, *byte);
    }
}

#[tactic(auto, using(crate::proofs::StoreLaws::newline_after))]
// Bytes as digits, and a newline.
fn write_line(text: &mut [u8], at: usize, bytes: &[u8])
    requires { at + length bytes.now * 2 + 1 ≤ length text.old }
    ensures { text.new ≡ sets text.old at (digits_of bytes.now ++ (newline ∷ [])) }
{
    write_bytes(text, at, bytes);
    text[at + bytes.len() * 2] = b'\n';
}

// An answer's bytes: number, value, posted message as slot bytes.
fn answer_bytes<E: Told>(answer: Result<Accepted, E>) -> [u8; 8]
    ensures { result ≡ answer_bytes (told_by E.tells answer) }
{
    let (number, value, posted) = match answer {
        Ok(accepted) => (0, accepted.value, accepted.posted),
        Err(refusal) => {
            let told: Answer = refusal.into();
            (told.number, told.value, told.posted)
        }
    };
    let [high, low] = value.to_be_bytes();
    let [kind, from, to, third, pointer] = slot_bytes(posted);
    [number, high, low, kind, from, to, third, pointer]
}

#[tactic(auto, unfolding(model::specs::Transcript::answer_line))]
// The line of an answer, 16 digits and a newline, at a place of a text.
pub fn put_answer<E: Told>(text: &mut [u8], at: usize, answer: Result<Accepted, E>)
    requires { at + 17 ≤ length text.old }
    ensures { text.new ≡ sets text.old at (answer_line (told_by E.tells answer)) }
{
    write_line(text, at, &answer_bytes(answer));
}

// A call's four bytes.
pub fn bytes_of(call: Call) -> [u8; 4]
    ensures { result ≡ bytes_of call }
{
    match call {
        Call::MakeCopy { from, to, pointer } => [Code::MakeCopy.into(), from, to, pointer],
        Call::Receive { slot } => {
            let [high, low] = slot.to_be_bytes();
            [Code::Receive.into(), high, low, 0]
        }
        Call::Delete { site, pointer } => [Code::Delete.into(), site, pointer, 0],
        Call::Ask { site, pointer } => [Code::Ask.into(), site, pointer, 0],
    }
}

#[tactic(auto, unfolding(model::specs::Lines::write_call, model::specs::Lines::line_of))]
// The line of a call, eight digits and a newline, at the start of a text; 1 where the text is too short.
pub fn write_call(text: &mut [u8], call: Call) -> Result<Accepted, Refusal>
    ensures { record { answer = told result; desk = text.new } ≡ write_call text.old call }
{
    if text.len() < 9 {
        return Err(Refusal::BadShape);
    }
    write_line(text, 0, &bytes_of(call));
    Ok(Accepted::new(0, Posted::Nothing))
}
