// A line as a call (Document 01, Lines).
ghost use Rattle.std.specs.Prelude.{◌≡◌};
ghost use Rattle.model.specs.Lines.{read_bytes, read_line, refusal_in};
ghost use Rattle.rules.specs.Turned.{number_in};
ghost use Rattle.lines.specs.Said.{read_of};

use crate::code::Code;
use crate::digit::byte_at;
use model::Call;
use rules::refusal::Refusal;

#[tactic(auto, unfolding(model::specs::Lines::line_refusal))]
// What four bytes say: the code is tested, then the last byte, 00 for codes 02 to 04.
pub fn read_bytes(code: u8, a: u8, b: u8, c: u8) -> Result<Call, Refusal>
    ensures { read_of result ≡ read_bytes code a b c }
{
    match (Code::try_from(code)?, c) {
        (Code::MakeCopy, pointer) => Ok(Call::MakeCopy {
            from: a,
            to: b,
            pointer,
        }),
        (Code::Receive, 0) => Ok(Call::Receive {
            slot: u16::from_be_bytes([a, b]),
        }),
        (Code::Delete, 0) => Ok(Call::Delete {
            site: a,
            pointer: b,
        }),
        (Code::Ask, 0) => Ok(Call::Ask {
            site: a,
            pointer: b,
        }),
        _ => Err(Refusal::BadLine),
    }
}

#[tactic(auto, unfolding(model::specs::Lines::read_line, model::specs::Lines::line_refusal))]
// What a line says: eight characters, then digits, then the rest.
pub fn read_line(line: &[u8]) -> Result<Call, Refusal>
    ensures read { read_of result ≡ read_line line.now }
    ensures number { number_in result ≡ refusal_in (read_line line.now) }
{
    if line.len() != 8 {
        return Err(Refusal::BadLine);
    }
    let byte = |i| byte_at(line, i).ok_or(Refusal::BadLine);
    read_bytes(byte(0)?, byte(1)?, byte(2)?, byte(3)?)
}
