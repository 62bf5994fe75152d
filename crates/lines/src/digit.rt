// Digits 0-9 A-F, two to a byte (Document 01, Lines).
ghost use Rattle.std.specs.Prelude.{◌≡◌, ◌+◌, ◌*◌, ◌≤◌, ◌<◌, length};
ghost use Rattle.model.specs.Lines.{digit_of, number_of, byte_of, byte_at};
ghost use Rattle.lines.specs.Said.{below};

// The sixteen digits, in order (Document 02, Four).
const DIGITS: [u8; 16] = [
    b'0', b'1', b'2', b'3', b'4', b'5', b'6', b'7', b'8', b'9', b'A', b'B', b'C', b'D', b'E', b'F',
];

#[tactic(auto, using(crate::proofs::DigitTable::entry_is_digit))]
// The digit of a number below 16.
pub(crate) fn digit_of(n: u8) -> u8
    requires { n < 16 }
    ensures { result ≡ digit_of n }
{
    DIGITS[n as usize]
}

#[tactic(auto, unfolding(model::specs::Lines::number_of))]
// The number of a digit; none for any other character.
pub fn number_of(c: u8) -> Option<u8>
    ensures { result ≡ below 16 (number_of c) }
{
    match c {
        b'0'..=b'9' => Some(c - b'0'),
        b'A'..=b'F' => Some(c - b'A' + 10),
        _ => None,
    }
}

#[tactic(auto, unfolding(model::specs::Lines::byte_of))]
// The byte of two characters; none where one of them is no digit.
pub fn byte_of(high: u8, low: u8) -> Option<u8>
    ensures { result ≡ below 256 (byte_of high low) }
{
    Some(number_of(high)? * 16 + number_of(low)?)
}

// Byte i of a line of digits.
pub fn byte_at(line: &[u8], i: usize) -> Option<u8>
    requires { i * 2 + 2 ≤ length line.now }
    ensures { result ≡ below 256 (byte_at line.now i) }
{
    byte_of(line[i * 2], line[i * 2 + 1])
}
