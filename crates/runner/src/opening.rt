// The opening line: S, slot count, owners (Document 01, Lines).
ghost use Rattle.std.specs.Prelude.{◌≡◌, true, ◌/◌, length};
ghost use Rattle.model.specs.Questions.{every};
ghost use Rattle.model.specs.Lines.{is_byte};
ghost use Rattle.model.specs.Transcript.{opening_form, owners_in};
ghost use Rattle.runner.specs.Opened.{pointers_in, read_opening};

use lines::digit::byte_at;
use rules::refusal::{Refusal, when};
use tables::shape::shape_good;

// What an opening line asks for.
#[derive(Clone, Copy)]
pub(crate) struct Asked {
    pub(crate) s: u8,
    pub(crate) slots: usize,
}

// Whether every two characters are a byte.
fn all_bytes(line: &[u8]) -> bool
    ensures { result ≡ every (length line.now / 2) (is_byte line.now) }
{
    (0..line.len() / 2).all(|i| byte_at(line, i).is_some())
}

// 6 to 518 digits, an even count.
fn form_good(line: &[u8]) -> bool
    ensures { result ≡ opening_form line.now }
{
    let n = line.len();
    (6 <= n) & (n <= 518) & (n % 2 == 0) & all_bytes(line)
}

#[tactic(auto, using(crate::proofs::OpeningLaws::first_bytes, crate::proofs::OpeningLaws::formed), unfolding(crate::specs::Opened::read_opening))]
// Form (14), then shape (1): no table is made for a shape that does not fit.
pub(crate) fn read_opening(line: &[u8]) -> Result<Asked, Refusal>
    ensures { result ≡ read_opening line.now }
{
    when(Refusal::BadLine, !form_good(line))?;
    let s = byte_at(line, 0).unwrap();
    let [high, low] = [byte_at(line, 1).unwrap(), byte_at(line, 2).unwrap()];
    let slots = u16::from_be_bytes([high, low]) as usize;
    let g = line.len() / 2 - 3;
    let cells = (s as usize) * g;
    when(
        Refusal::BadShape,
        !shape_good(s, g, cells, cells, slots * 5),
    )?;
    Ok(Asked { s, slots })
}

#[tactic(auto, using(crate::proofs::OpeningLaws::byte_there), unfolding(model::specs::Questions::up_to))]
// The owners of an opening line of good form.
pub(crate) fn fill_owners(line: &[u8], owners: &mut [u8])
    requires { (opening_form line.now ≡ true) × (length owners.old ≡ pointers_in line.now) }
    ensures { owners.new ≡ owners_in line.now }
{
    for (p, owner) in owners.iter_mut().enumerate() {
        *owner = byte_at(line, p + 3).unwrap();
    }
}
