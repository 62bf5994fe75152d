// The reader of a text, line after line (Document 01, Lines).
ghost use Rattle.std.specs.Prelude.{◌≡◌, ◌==◌, ◌+◌, take, drop, position};
ghost use Rattle.std.specs.Iterator.{YieldsFirstRef, item_count};
ghost use Rattle.model.specs.Lines.{newline, width};
ghost use Rattle.lines.specs.Reading.{started, moved_on, lines_left, GivesRead};

use crate::line::read_line;
use model::Call;
use rules::refusal::Refusal;

// The place of the first newline.
fn first_newline(text: &[u8]) -> Option<usize>
    ensures { result ≡ position (λ c. c == newline) text.now }
{
    text.iter().position(|c| *c == b'\n')
}

#[tactic(auto, using(crate::proofs::WidthLaws::width_is_position, std::proofs::lemmas::Grind::common_steps))]
// The first line, and what follows its newline: nothing if there is none.
fn split_line(text: &[u8]) -> (&[u8], &[u8])
    ensures line { result.0.now ≡ take (width text.now) text.now }
    ensures rest { result.1.now ≡ drop (width text.now + 1) text.now }
{
    match first_newline(text) {
        Some(end) => (&text[..end], &text[end + 1..]),
        None => text.split_at(text.len()),
    }
}

// A reader stands over the lent text and knows how far it has come.
#[derive(Clone, Copy)]
pub struct Reader<'a> {
    pub text: &'a [u8],
    pub at: usize,
}

impl<'a> Reader<'a> {
    // At the start of a text.
    pub fn new(text: &'a [u8]) -> Reader<'a>
        ensures { result ≡ started text.entry }
    {
        Reader { text, at: 0 }
    }

    #[tactic(auto, using(model::proofs::LineLaws::no_lines, crate::proofs::PlaceLaws::lines_past, crate::proofs::PlaceLaws::moved_past, crate::proofs::PlaceLaws::moved_nowhere))]
    // The characters of the next line, and it moves past that line; at the end it stays.
    pub fn line(&mut self) -> Option<&'a [u8]>
        ensures line { YieldsFirstRef lines_left self.old result self.new }
        ensures place { self.new ≡ moved_on self.old }
    {
        if self.text.len() <= self.at {
            return None;
        }
        let (_, left) = self.text.split_at(self.at);
        let (line, rest) = split_line(left);
        self.at = self.text.len() - rest.len();
        Some(line)
    }
}

// What each line says, a call or a refusal, which does not stop it.
impl<'a> Iterator for Reader<'a> {
    type Item = Result<Call, Refusal>;

    ghost next_gives = { GivesRead };

    ghost remaining = { item_count lines_left };

    #[tactic(auto, using(crate::proofs::NextLaws::answers_none, crate::proofs::NextLaws::answers_line))]
    fn next(&mut self) -> Option<Result<Call, Refusal>> {
        self.line().map(read_line)
    }
}
