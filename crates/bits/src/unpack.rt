// From words to the byte cells of document 01 (Document 02, Five).
ghost use Rattle.std.specs.Prelude.{◌≡◌, map, ◌*◌, ◌<◌, ◌≤◌, length};
ghost use Rattle.rules.specs.Turned.{told};
ghost use Rattle.word_cells.specs.WordCells.{bit, unpacked, unpack as unpack_of};

use crate::bit::bit_of;
use crate::fit::tables_fit;
use crate::within::all_within;
use model::Posted;
use rules::answer::Accepted;
use rules::refusal::Refusal;

// The row of a site: its bit of each word.
fn write_row(site: u8, words: &[u64], row: &mut [u8])
    requires { (site < 64) × (length row.old ≡ length words.now) }
    ensures { row.new ≡ map (λ word. bit word site) words.now }
{
    for (p, cell) in row.iter_mut().enumerate() {
        *cell = bit_of(words[p], site);
    }
}

// The rows of all sites. No call of tables::rows: one function for both would take the cell as a closure and want a third definition of rows.
#[tactic(auto, using(std::proofs::lemmas::Slice::overwrites), unfolding(word_cells::specs::WordCells::unpacked))]
fn write_cells(sites: u8, words: &[u64], cells: &mut [u8])
    requires { (sites ≤ 64) × (length cells.old ≡ sites * length words.now) }
    ensures { cells.new ≡ unpacked sites words.now }
{
    let g = words.len();
    for site in 0..sites {
        let start = (site as usize) * g;
        write_row(site, words, &mut cells[start..start + g]);
    }
}

// Words as byte cells: 1, 2; after a refusal nothing is written.
#[tactic(auto, unfolding(word_cells::specs::WordCells::unpack, word_cells::specs::WordCells::unpack_number))]
pub fn unpack(sites: u8, words: &[u64], cells: &mut [u8]) -> Result<Accepted, Refusal>
    ensures { record { answer = told result; desk = cells.new } ≡ unpack_of sites words.now cells.old }
{
    if !tables_fit(sites, cells.len(), words.len()) {
        return Err(Refusal::BadShape);
    }
    if !all_within(words, sites) {
        return Err(Refusal::BadTable);
    }
    write_cells(sites, words, cells);
    Ok(Accepted::new(0, Posted::Nothing))
}
