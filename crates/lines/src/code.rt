// The code of a call, the first byte of its line (Document 01, Lines).
ghost use Rattle.std.specs.Prelude.{◌≡◌};
ghost use Rattle.lines.specs.Said.{code_number, GivesCode};

use rules::refusal::Refusal;

// Which call; the discriminant is the byte.
#[derive(Clone, Copy, Debug, PartialEq, Eq)]
pub(crate) enum Code {
    MakeCopy = 1,
    Receive = 2,
    Delete = 3,
    Ask = 4,
}

impl From<Code> for u8 {
    ghost from_gives = { λ code byte. byte ≡ code_number code };

    fn from(code: Code) -> u8 {
        code as u8
    }
}

// A byte that is no code is refused: 15 for 00 and 05 to 7F, 16 for 80 to FF.
impl TryFrom<u8> for Code {
    type Error = Refusal;

    ghost try_from_gives = { GivesCode };

    fn try_from(byte: u8) -> Result<Code, Refusal> {
        match byte {
            0x01 => Ok(Code::MakeCopy),
            0x02 => Ok(Code::Receive),
            0x03 => Ok(Code::Delete),
            0x04 => Ok(Code::Ask),
            0x00 | 0x05..=0x7F => Err(Refusal::UnknownCode),
            0x80..=0xFF => Err(Refusal::PrivateCode),
        }
    }
}
