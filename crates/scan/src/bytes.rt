// Bytes below a limit: owners and receive cells (Document 01, What the host lends).
ghost use Rattle.std.specs.Prelude.{◌≡◌, ◌+◌, ◌*◌, ◌≤◌, length};
ghost use Rattle.model.specs.Questions.{every};
ghost use Rattle.model.specs.Tables.{byte_below, all_below};
ghost use Rattle.scan.specs.Word.{clear, bit_mask};

use crate::word::eight_at;

// Whether every byte is below n: whether the largest is.
pub fn all_below(bytes: &[u8], n: u8) -> bool
    requires { 1 ≤ n }
    ensures { result ≡ all_below n bytes.now }
{
    let mut largest: u8 = 0;
    for x in bytes {
        if largest < *x {
            largest = *x;
        }
    }
    largest < n
}

// Whether none of the eight bytes of a number shows more than its lowest bit.
fn only_bits(seen: u64) -> bool
    ensures { result ≡ clear bit_mask seen }
{
    (seen & 0xFEFE_FEFE_FEFE_FEFE) == 0
}

// What the first 32 q bytes show, in four streams of words, so that the compiler takes several at a step.
fn streams_shown(bytes: &[u8], q: usize) -> u64
    requires { q * 32 ≤ length bytes.now }
    ensures { clear bit_mask result ≡ every (q * 32) (byte_below 2 bytes.now) }
{
    let mut seen: u64 = 0;
    for i in 0..q {
        let at = i * 8;
        let words = eight_at(bytes, at)
            | eight_at(bytes, q * 8 + at)
            | eight_at(bytes, q * 16 + at)
            | eight_at(bytes, q * 24 + at);
        seen |= words;
    }
    seen
}

// What sixteen bytes show.
fn sixteen_shown(bytes: &[u8], at: usize) -> u64
    requires { at + 16 ≤ length bytes.now }
    ensures { clear bit_mask result ≡ every 16 (λ j. byte_below 2 bytes.now (at + j)) }
{
    eight_at(bytes, at) | eight_at(bytes, at + 8)
}

// Whether every byte is 0 or 1. The last words may overlap those before them.
pub fn all_bits(bytes: &[u8]) -> bool
    ensures { result ≡ all_below 2 bytes.now }
{
    let n = bytes.len();
    if n < 8 {
        return all_below(bytes, 2);
    }
    if n < 16 {
        return only_bits(eight_at(bytes, 0) | eight_at(bytes, n - 8));
    }
    if n < 32 {
        return only_bits(sixteen_shown(bytes, 0) | sixteen_shown(bytes, n - 16));
    }
    only_bits(
        streams_shown(bytes, n / 32) | sixteen_shown(bytes, n - 32) | sixteen_shown(bytes, n - 16),
    )
}
