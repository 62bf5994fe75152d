// The receive table, of bytes or of words: how a cell of either is read, tested and written (Document 01, What the host lends; Document 02, Five).
ghost use Rattle.std.specs.Prelude.{◌≡◌, ℕ, true, ◌≤◌, ◌<◌, List, length};
ghost use Rattle.model.specs.Parts.{ReceiveTable, LawfulCells};
ghost use Rattle.model.specs.Tables.{all_below};
ghost use Rattle.model.specs.Flat.{byte_cells};
ghost use Rattle.word_cells.specs.WordCells.{word_cells};
ghost use Rattle.model.proofs.FlatLaws.{byte_cells_lem};
ghost use Rattle.word_cells.proofs.WordLaws.{word_cells_lem};

use bits::bit::{bit_of, with_bit};
use bits::owners::owner_bits;
use bits::within::all_within;
use scan::bytes::all_bits;
use tables::place::place_of;
use tables::rows::write_rows;

// What a receive table of such numbers is.
pub trait Cell: Copy {
    ghost table: { ReceiveTable (List Self) };

    // Whether its length is that for S and G.
    fn fits(s: u8, g: usize, cells: &[Self]) -> bool
        requires { (s ≤ 64) × (g ≤ 256) }
        ensures { result ≡ table.fits s g cells.now };

    // Whether its values are those for S.
    fn all_good(s: u8, cells: &[Self]) -> bool
        requires { s ≤ 64 }
        ensures { result ≡ table.bits s cells.now };

    // The cell of a site and a pointer.
    fn cell_in(g: usize, cells: &[Self], site: u8, pointer: u8) -> u8
        requires { (g ≤ 256) × (pointer < g) × (s : ℕ) × (s ≤ 64) × (site < s) × (table.fits s g cells.now ≡ true) }
        ensures { result ≡ table.cell_in g cells.now site pointer };

    // What an opening writes.
    fn open(s: u8, owners: &[u8], cells: &mut [Self])
        requires { (s ≤ 64) × (length owners.now ≤ 256) × (table.fits s (length owners.now) cells.old ≡ true) × (all_below s owners.now ≡ true) }
        ensures { cells.new ≡ table.owned s owners.now };

    // A cell of a site and a pointer, written.
    fn set_in(g: usize, cells: &mut [Self], site: u8, pointer: u8, n: u8)
        requires { (g ≤ 256) × (pointer < g) × (n ≤ 1) × (s : ℕ) × (s ≤ 64) × (site < s) × (table.fits s g cells.old ≡ true) }
        ensures { cells.new ≡ table.set_in g cells.old site pointer n };

    ghost lawful: { LawfulCells table };
}

// A byte for each site and pointer (Document 01, What the host lends).
impl Cell for u8 {
    ghost table = { byte_cells };

    fn fits(s: u8, g: usize, cells: &[u8]) -> bool {
        cells.len() == (s as usize) * g
    }

    fn all_good(s: u8, cells: &[u8]) -> bool {
        all_bits(cells)
    }

    fn cell_in(g: usize, cells: &[u8], site: u8, pointer: u8) -> u8 {
        cells[place_of(g, site, pointer)]
    }

    fn open(s: u8, owners: &[u8], cells: &mut [u8]) {
        write_rows(s, owners, cells)
    }

    fn set_in(g: usize, cells: &mut [u8], site: u8, pointer: u8, n: u8) {
        cells[place_of(g, site, pointer)] = n;
    }

    ghost lawful = { byte_cells_lem };
}

// A word for each pointer, site s at bit s (Document 02, Five).
impl Cell for u64 {
    ghost table = { word_cells };

    fn fits(s: u8, g: usize, cells: &[u64]) -> bool {
        cells.len() == g
    }

    fn all_good(s: u8, cells: &[u64]) -> bool {
        all_within(cells, s)
    }

    fn cell_in(g: usize, cells: &[u64], site: u8, pointer: u8) -> u8 {
        bit_of(cells[pointer as usize], site)
    }

    fn open(s: u8, owners: &[u8], cells: &mut [u64]) {
        owner_bits(owners, cells)
    }

    fn set_in(g: usize, cells: &mut [u64], site: u8, pointer: u8, n: u8) {
        let p = pointer as usize;
        cells[p] = with_bit(cells[p], site, n);
    }

    ghost lawful = { word_cells_lem };
}
