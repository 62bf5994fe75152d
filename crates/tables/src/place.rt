// The place of a cell in the send and receive tables (Document 01, What the host lends).
ghost use Rattle.std.specs.Prelude.{◌≡◌, ◌≤◌};
ghost use Rattle.model.specs.Tables.{place};

// The cell of site s and pointer p is at s x G + p.
pub fn place_of(g: usize, site: u8, pointer: u8) -> usize
    requires { g ≤ 256 }
    ensures { result ≡ place g site pointer }
{
    (site as usize) * g + (pointer as usize)
}
