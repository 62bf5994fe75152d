// Addresses are compared byte by byte (Document 01, The address book).
ghost use Rattle.std.specs.Prelude.{◌≡◌};
ghost use Rattle.book.specs.Book.{same};

#[tactic(auto, using(crate::proofs::SameLaws::same_compared))]
// Whether two addresses are the same.
pub fn same_bytes(a: &[u8], b: &[u8]) -> bool
    ensures { result ≡ same a.now b.now }
{
    a == b
}
