// Words with no bit at or above S (Document 02, Five).
ghost use Rattle.std.specs.Prelude.{◌≡◌, ◌^◌, ◌≤◌, bit_or, fold};
ghost use Rattle.model.specs.Tables.{all_below};

// What the words show: every bit that is set in one of them.
fn seen(words: &[u64]) -> u64
    ensures { result ≡ fold bit_or 0 words.now }
{
    words.iter().fold(0, |shown, word| shown | *word)
}

// Whether no word has a bit at or above S: 64 has none, and there is no shift by 64.
#[tactic(auto, using(crate::proofs::BitLaws::all_below_as_seen, crate::proofs::BitLaws::shifted_off))]
pub fn all_within(words: &[u64], s: u8) -> bool
    requires { s ≤ 64 }
    ensures { result ≡ all_below (2 ^ s) words.now }
{
    let shown = seen(words);
    if s == 64 {
        return true;
    }
    (shown >> s) == 0
}
