// A whole input in, a whole output out: all of the program `desk` but its reading and writing (Document 01, Lines).
#![tactic(auto)]

use crate::session::begin;
use lines::write::put_answer;
use rules::refusal::Refusal;

mod opening;
mod session;

ghost use Rattle.std.specs.Prelude.{◌≡◌};
ghost use Rattle.runner.specs.Run.{run as run_of};

#[tactic(auto, using(crate::proofs::BegunLaws::one_line), unfolding(crate::specs::Run::run, model::specs::Transcript::transcript))]
// The transcript of the input, at the start of the output; nothing where the output has not room for every input's.
pub fn run(input: &[u8], output: &mut [u8]) -> usize
    ensures { record { output = output.exit.now; count = result } ≡ run_of input.now output.entry.now }
{
    if output.len() < 139264 {
        return 0;
    }
    if 8192 < input.len() {
        put_answer(output, 0, Err(Refusal::TooLong));
        return 17;
    }
    begin(input, output)
}
