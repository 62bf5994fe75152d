// The bits of a word (Document 02, Five).
ghost use Rattle.std.specs.Prelude.{◌≡◌, ◌*◌, ◌^◌, ◌≤◌, ◌<◌};
ghost use Rattle.std.specs.Int.Count.{ones as ones_of};
ghost use Rattle.word_cells.specs.WordCells.{bit, with_bit};

// Bit s of a word.
#[tactic(auto, unfolding(word_cells::specs::WordCells::bit))]
pub fn bit_of(word: u64, site: u8) -> u8
    requires { site < 64 }
    ensures { result ≡ bit word site }
{
    ((word >> site) % 2) as u8
}

// A bit at its place in a word.
pub(crate) fn at_bit(n: u8, site: u8) -> u64
    requires { (site < 64) × (n ≤ 1) }
    ensures { result ≡ n * 2 ^ site }
{
    (n as u64) << site
}

// A word with n at bit s: what stands there is taken off, and n put there.
#[tactic(auto, using(crate::proofs::BitLaws::bit_inside, word_cells::proofs::BitLaws::bit_most, word_cells::proofs::BitLaws::with_bit_below), unfolding(word_cells::specs::WordCells::with_bit))]
pub fn with_bit(word: u64, site: u8, n: u8) -> u64
    requires { (site < 64) × (n ≤ 1) }
    ensures { result ≡ with_bit word site n }
{
    let there = bit_of(word, site);
    word - at_bit(there, site) + at_bit(n, site)
}

// How many bits of a word are ones.
pub fn ones(word: u64) -> u16
    ensures { result ≡ ones_of word }
{
    u64::count_ones(word) as u16
}
