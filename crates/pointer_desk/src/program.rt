// The program `desk` as one call (Document 01, Lines).
ghost use Rattle.std.specs.Prelude.{◌≡◌};
ghost use Rattle.runner.specs.Run.{run as run_of};

use runner::run;

// A whole input in, a whole output out.
#[unsafe(no_mangle)]
pub extern "C" fn desk_run(input: &[u8], output: &mut [u8]) -> usize
    ensures { record { output = output.exit.now; count = result } ≡ run_of input.now output.entry.now }
{
    run(input, &mut output[..])
}
