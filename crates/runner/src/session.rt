// From the opening line to the last answer (Document 01, Lines).
ghost use Rattle.std.specs.Prelude.{◌≡◌, ◌+◌, ◌*◌, ◌≤◌, length};
ghost use Rattle.std.proofs.lemmas.List.Edits.{sets};
ghost use Rattle.model.specs.Tables.{Desk as Parts, lent};
ghost use Rattle.model.specs.Flat.{flat};
ghost use Rattle.model.specs.Calls.{open_desk, ask as ask_of, step as step_of};
ghost use Rattle.model.specs.Lines.{lines_of};
ghost use Rattle.model.specs.Transcript.{opening, answers, begun, session as session_of};
ghost use Rattle.rules.specs.Turned.{told};
ghost use Rattle.lines.specs.Reading.{lines_left};
ghost use Rattle.runner.specs.Run.{written, room};
ghost use Rattle.runner.specs.Opened.{Opens};

use crate::opening::{Asked, fill_owners, read_opening};
use held::copy::make_copy;
use held::delete::delete;
use held::opening::open_desk;
use held::receive::receive as receive_slot;
use lent::desk::Lent;
use lent::held_slots::HeldSlots;
use lines::reader::Reader;
use lines::write::put_answer;
use model::Call;
use rules::answer::Accepted;
use rules::refusal::Refusal;
use std::marker::Model;

// The tables over which a session runs, read as one desk.
#[derive(Drop)]
struct Desk<'a> {
    s: u8,
    owners: &'a [u8],
    send: &'a mut [u16],
    receive: &'a mut [u8],
    pool: &'a mut [u8],
}

impl<'a> Model for Desk<'a> {
    ghost Value = { Parts };

    ghost view = { λ d. lent d.s d.owners.now d.send.now d.receive.now d.pool.now };
}

impl<'a> Desk<'a> {
    // The opening.
    fn open(&mut self) -> Result<Accepted, Refusal>
        ensures { record { answer = told result; desk = self.new } ≡ open_desk flat self.old }
    {
        open_desk(self.s, self.owners, self.send, self.receive, self.pool)
    }

    // A question, which changes nothing.
    fn ask(&self, site: u8, pointer: u8) -> Result<Accepted, Refusal>
        ensures { record { answer = told result; desk = self.now } ≡ ask_of flat self.now site pointer }
    {
        let slots = HeldSlots::new(&self.pool[..]);
        let receive = &self.receive[..];
        Lent::new(self.s, self.owners, &self.send[..], receive, slots).ask(site, pointer)
    }

    #[tactic(auto, unfolding(model::specs::Calls::step))]
    // One call on the desk.
    fn step(&mut self, call: Call) -> Result<Accepted, Refusal>
        ensures { record { answer = told result; desk = self.new } ≡ step_of flat self.old call }
    {
        // Each by itself, since no field is read while another is lent.
        let s = self.s;
        let owners = self.owners;
        let send = &mut *self.send;
        let receive = &mut *self.receive;
        let pool = &mut *self.pool;
        match call {
            Call::MakeCopy { from, to, pointer } => {
                make_copy(s, owners, send, &receive[..], pool, from, to, pointer)
            }
            Call::Receive { slot } => receive_slot(s, owners, send, receive, pool, slot),
            Call::Delete { site, pointer } => {
                delete(s, owners, &send[..], receive, pool, site, pointer)
            }
            Call::Ask { site, pointer } => self.ask(site, pointer),
        }
    }

    #[tactic(auto, using(crate::proofs::BegunLaws::line_then), unfolding(model::specs::Transcript::answers))]
    // The answer lines of the lines after the opening, past its answer line; a refused line does not stop it.
    fn answer_lines(&mut self, reader: Reader, output: &mut [u8]) -> usize
        requires { 17 + length (lines_left reader) * 17 ≤ length output.old }
        ensures text { output.new ≡ sets output.old 17 (answers self.old (lines_left reader.entry)) }
        ensures count { result ≡ 17 + length (lines_left reader.entry) * 17 }
    {
        let mut end = 17;
        for read in reader {
            let Ok(call) = read else {
                put_answer(output, end, Err(read.unwrap_err()));
                end += 17;
                continue;
            };
            put_answer(output, end, self.step(call));
            end += 17;
        }
        end
    }
}

#[tactic(auto, using(crate::proofs::OpeningLaws::few_cells, crate::proofs::OpeningLaws::few_slots, crate::proofs::OpeningLaws::part_long, crate::proofs::OpeningLaws::formed))]
// The tables: parts of arrays that are long enough for every shape, since the memory is fixed. It opens, and after a refused opening it stops.
fn session(line: &[u8], asked: Asked, rest: Reader, output: &mut [u8]) -> usize
    requires { Opens line.now asked.s asked.slots × (17 + length (lines_left rest) * 17 ≤ length output.old) }
    ensures { record { output = output.exit.now; count = result }
        ≡ written output.entry.now (begun (opening line.now) (lines_left rest.entry)) }
{
    let g = line.len() / 2 - 3;
    let cells = (asked.s as usize) * g;
    let mut owners = [0u8; 256];
    let mut send = [0u16; 16384];
    let mut receive = [0u8; 16384];
    let mut pool = [0u8; 5120];
    let owners = &mut owners[..g];
    fill_owners(line, owners);
    let mut desk = Desk {
        s: asked.s,
        owners,
        send: &mut send[..cells],
        receive: &mut receive[..cells],
        pool: &mut pool[..asked.slots * 5],
    };
    let opened = desk.open();
    put_answer(output, 0, opened);
    match opened {
        Ok(_) => desk.answer_lines(rest, output),
        Err(_) => 17,
    }
}

#[tactic(auto, unfolding(model::specs::Transcript::session))]
// The first line opens; a line that is refused for its form or its shape stops it.
pub(crate) fn begin(input: &[u8], output: &mut [u8]) -> usize
    requires { (length input.now ≤ 8192) × (room ≤ length output.old) }
    ensures { record { output = output.exit.now; count = result } ≡ written output.entry.now (session_of (lines_of input.now)) }
{
    let mut reader = Reader::new(input);
    let Some(line) = reader.line() else {
        return 0;
    };
    let opening = read_opening(line);
    let Ok(asked) = opening else {
        put_answer(output, 0, Err(opening.unwrap_err()));
        return 17;
    };
    session(line, asked, reader, output)
}
