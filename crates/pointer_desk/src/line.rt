// The line form of a call: the writer, and the reader at a place of a text (Document 01, Lines).
ghost use Rattle.std.specs.Prelude.{◌≡◌};
ghost use Rattle.rules.specs.Turned.{told};
ghost use Rattle.lines.specs.Said.{read_of};
ghost use Rattle.pointer_desk.specs.Boundary.{given, line_written, flat_read, line_given};

use crate::answer::DeskAnswer;
use lines::line::read_bytes;
use lines::reader::Reader;
use lines::write::{bytes_of, write_call};
use model::Call;
use rules::answer::Accepted;
use rules::refusal::Refusal;

// What a reader answers: a number, whether it has ended, the call's four bytes, and where it stands then.
#[repr(C)]
#[derive(Clone, Copy)]
pub struct DeskLine {
    pub number: u8,
    pub ended: u8,
    pub call: [u8; 4],
    pub at: usize,
}

// What the four bytes say, written as a line at the start of a text.
fn write_bytes(code: u8, a: u8, b: u8, c: u8, text: &mut [u8]) -> Result<Accepted, Refusal>
    ensures { record { answer = told result; desk = text.new } ≡ line_written text.old code a b c }
{
    write_call(text, read_bytes(code, a, b, c)?)
}

// The call of four bytes, as a line at the start of a text.
#[unsafe(no_mangle)]
pub extern "C" fn desk_line_write(code: u8, a: u8, b: u8, c: u8, text: &mut [u8]) -> DeskAnswer
    ensures { record { answer = result; desk = text.new } ≡ given (line_written text.old code a b c) }
{
    write_bytes(code, a, b, c, text).into()
}

// What a line says, in C's form, and a place.
fn flat_read(read: Result<Call, Refusal>, at: usize) -> DeskLine
    ensures { result ≡ flat_read (read_of read) at }
{
    match read {
        Ok(call) => DeskLine {
            number: 0,
            ended: 0,
            call: bytes_of(call),
            at,
        },
        Err(refusal) => DeskLine {
            number: u8::from(refusal),
            ended: 0,
            call: [0; 4],
            at,
        },
    }
}

// What the reader that stands at a place answers, and where it stands then.
#[unsafe(no_mangle)]
pub extern "C" fn desk_line_read(text: &[u8], at: usize) -> DeskLine
    ensures { result ≡ line_given text.now at }
{
    let mut reader = Reader { text, at };
    match reader.next() {
        Some(read) => flat_read(read, reader.at),
        None => DeskLine {
            number: 0,
            ended: 1,
            call: [0; 4],
            at,
        },
    }
}
