// The sizes of byte cells and words that are packed and unpacked (Document 02, Five).
ghost use Rattle.std.specs.Prelude.{◌≡◌, ◌&&◌, ◌*◌, eqb};
ghost use Rattle.model.specs.Tables.{sizes_good};

use tables::shape::sizes_good;

// Sites is 1 to 64, there are 0 to 256 words, and sites x words bytes.
pub(crate) fn tables_fit(sites: u8, cells: usize, words: usize) -> bool
    ensures { result ≡ (sizes_good sites words && eqb cells (sites * words)) }
{
    if !sizes_good(sites, words) {
        return false;
    }
    cells == (sites as usize) * words
}
