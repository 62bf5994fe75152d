// An owner and an address in a book (Document 01, The address book).
ghost use Rattle.std.specs.Prelude.{◌≡◌, true, not, ◌<◌, length, IfOk, IfSome};
ghost use Rattle.std.specs.Option.{unwrap_or};
ghost use Rattle.model.specs.Questions.{lowest as lowest_of};
ghost use Rattle.model.specs.Refusals.{BadBook, ◌when◌};
ghost use Rattle.rules.specs.Turned.{number_in};
ghost use Rattle.book.specs.Book.{is_book, twins};
ghost use Rattle.book.specs.Walk.{meets};

use crate::bytes::same_bytes;
use crate::walk::{SHORTEST, entry_end, walk_from};
use rules::refusal::{Refusal, when};

// The lowest pointer that has an owner and an address, as far as the book has entries.
pub fn lowest(owners: &[u8], book: &[u8], owner: u8, address: &[u8]) -> Option<usize>
    ensures pointer { unwrap_or result (length owners.now) ≡ lowest_of (length owners.now) (meets owners.now book.now owner address.now) }
    ensures inside { IfSome result (λ p. p < length owners.now) }
{
    let mut at = 0;
    for (p, its) in owners.iter().enumerate() {
        let end = entry_end(SHORTEST, book, at)?;
        if *its == owner && same_bytes(&book[at + 1..end], address) {
            return Some(p);
        }
        at = end;
    }
    None
}

// One pass over a whole book: 18 where it is none, else the lowest pointer that has an owner and an address.
pub(crate) fn listed(
    owners: &[u8],
    book: &[u8],
    owner: u8,
    address: &[u8],
) -> Result<Option<usize>, Refusal>
    ensures number { number_in result ≡ BadBook when not (is_book (length owners.now) book.now) }
    ensures pointer { IfOk result (λ p. unwrap_or p (length owners.now) ≡ lowest_of (length owners.now) (meets owners.now book.now owner address.now)) }
    ensures inside { IfOk result (λ p. IfSome p (λ q. q < length owners.now)) }
{
    let mut at = 0;
    for (p, own) in owners.iter().enumerate() {
        let Some(end) = entry_end(SHORTEST, book, at) else {
            return Err(Refusal::BadBook);
        };
        if *own == owner && same_bytes(&book[at + 1..end], address) {
            // The rest is walked over alone.
            let whole = walk_from(SHORTEST, book, end, owners.len() - (p + 1)) == Some(book.len());
            when(Refusal::BadBook, !whole)?;
            return Ok(Some(p));
        }
        at = end;
    }
    when(Refusal::BadBook, at != book.len())?;
    Ok(None)
}

// Whether two pointers have equal owner and equal address: one has what a lower one has.
pub fn has_twins(owners: &[u8], book: &[u8]) -> bool
    requires { is_book (length owners.now) book.now ≡ true }
    ensures { result ≡ twins owners.now book.now }
{
    let mut at = 0;
    for (p, owner) in owners.iter().enumerate() {
        // A book has an entry for each pointer.
        let Some(end) = entry_end(SHORTEST, book, at) else {
            return false;
        };
        if lowest(&owners[..p], book, *owner, &book[at + 1..end]).is_some() {
            return true;
        }
        at = end;
    }
    false
}
