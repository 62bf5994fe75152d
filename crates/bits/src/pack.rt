// From the byte cells of document 01 to words (Document 02, Five).
ghost use Rattle.std.specs.Prelude.{◌≡◌, true, ◌*◌, ◌<◌, ◌≤◌, length};
ghost use Rattle.model.specs.Tables.{all_below};
ghost use Rattle.rules.specs.Turned.{told};
ghost use Rattle.word_cells.specs.WordCells.{packed_word, packed, pack as pack_of};

use crate::bit::at_bit;
use crate::fit::tables_fit;
use model::Posted;
use rules::answer::Accepted;
use rules::refusal::Refusal;
use scan::bytes::all_bits;

// The word of a pointer: the cell of each site at its bit.
#[tactic(auto, using(crate::proofs::CellLaws::cell_most, crate::proofs::CellLaws::packed_fits), unfolding(model::specs::Questions::total))]
fn packed_word(sites: u8, g: usize, cells: &[u8], p: usize) -> u64
    requires { (sites ≤ 64) × (g ≤ 256) × (p < g) × (length cells.now ≡ sites * g) × (all_below 2 cells.now ≡ true) }
    ensures { result ≡ packed_word sites g cells.now p }
{
    let mut word: u64 = 0;
    for site in 0..sites {
        word += at_bit(cells[(site as usize) * g + p], site);
    }
    word
}

// The words of all pointers.
#[tactic(auto, unfolding(model::specs::Questions::up_to, word_cells::specs::WordCells::packed))]
fn write_words(sites: u8, cells: &[u8], words: &mut [u64])
    requires { (sites ≤ 64) × (length words.old ≤ 256) × (length cells.now ≡ sites * length words.old) × (all_below 2 cells.now ≡ true) }
    ensures { words.new ≡ packed sites (length words.old) cells.now }
{
    let g = words.len();
    for (p, word) in words.iter_mut().enumerate() {
        *word = packed_word(sites, g, cells, p);
    }
}

// Byte cells as words: 1, 2; after a refusal nothing is written.
#[tactic(auto, unfolding(word_cells::specs::WordCells::pack, word_cells::specs::WordCells::pack_number))]
pub fn pack(sites: u8, cells: &[u8], words: &mut [u64]) -> Result<Accepted, Refusal>
    ensures { record { answer = told result; desk = words.new } ≡ pack_of sites cells.now words.old }
{
    if !tables_fit(sites, cells.len(), words.len()) {
        return Err(Refusal::BadShape);
    }
    if !all_bits(cells) {
        return Err(Refusal::BadTable);
    }
    write_words(sites, cells, words);
    Ok(Accepted::new(0, Posted::Nothing))
}
