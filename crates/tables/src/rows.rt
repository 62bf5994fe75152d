// The receive table of an opening, row by row (Document 01, What the host lends).
ghost use Rattle.std.specs.Prelude.{◌≡◌, ◌*◌, ◌≤◌, length};
ghost use Rattle.model.specs.Tables.{own_row, own_rows};

// The row of a site: 1 for each pointer that it owns, 0 for the others.
#[tactic(auto, using(crate::proofs::RowLaws::test_as_byte))]
fn write_row(site: u8, owners: &[u8], row: &mut [u8])
    requires { length row.old ≡ length owners.now }
    ensures { row.new ≡ own_row site owners.now }
{
    for (p, cell) in row.iter_mut().enumerate() {
        *cell = (site == owners[p]) as u8;
    }
}

// The rows of all sites. A place at = site x G in their stead would make each test one of 64 bits, four times the instructions.
#[tactic(auto, using(std::proofs::lemmas::Slice::overwrites), unfolding(model::specs::Tables::own_rows))]
pub fn write_rows(s: u8, owners: &[u8], cells: &mut [u8])
    requires { (s ≤ 64) × (length owners.now ≤ 256) × (length cells.old ≡ s * length owners.now) }
    ensures { cells.new ≡ own_rows s owners.now }
{
    let mut at = 0;
    for site in 0..s {
        let end = at + owners.len();
        write_row(site, owners, &mut cells[at..end]);
        at = end;
    }
}
