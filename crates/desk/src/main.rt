// The program `desk` (Document 01, Lines): all of standard input in, its transcript out.
#![tactic(auto)]

ghost use Rattle.std.specs.Prelude.{◌≡◌, ◌≤◌, length};

use std::io::{self, Read, Write};

// Where nothing came: whether the input can be read at all is asked by a read of no bytes, and told if not.
fn tell_unreadable(rt: &HostRuntime) {
    let mut none = [0u8; 0];
    if rt.stdin().read(&mut none).is_err() {
        let _ = eprintln!(rt; "desk: the input cannot be read");
    }
}

// How many bytes of the input there are, as far as the buffer has room; a read that fails ends the input. No index is counted: a turn reads as much as comes.
fn read_full(rt: &HostRuntime, buffer: &mut [u8]) -> usize
    ensures within { result ≤ length buffer.new }
    ensures same_length { length buffer.new ≡ length buffer.old }
{
    let mut input = rt.stdin();
    let mut n = 0;
    while n < buffer.len() {
        let Ok(count) = input.read(&mut buffer[n..]) else {
            break;
        };
        if count == 0 {
            break;
        }
        n += count;
    }
    n
}

// The memory is fixed. 8,193 bytes tell that an input is too long; a reader that goes away ends the writing.
fn main(rt: HostRuntime) {
    let mut input = [0u8; 8193];
    let mut output = [0u8; 139264];
    let n = read_full(&rt, &mut input);
    if n == 0 {
        tell_unreadable(&rt);
    }
    let m = runner::run(&input[..n], &mut output);
    let _ = io::writer(&rt).write_all(&output[..m]);
}
