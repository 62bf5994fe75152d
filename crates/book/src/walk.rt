// Over the entries of a book (Document 01, The address book).
ghost use Rattle.std.specs.Prelude.{◌≡◌, ◌+◌, ◌<◌, ◌≤◌, length, slice_index, not, IfOk, IfSome};
ghost use Rattle.std.specs.Option.{unwrap_or};
ghost use Rattle.book.specs.Book.{entry_at, is_book};
ghost use Rattle.book.specs.Walk.{entry_end, walked};
ghost use Rattle.model.specs.Refusals.{BadBook, ◌when◌};
ghost use Rattle.rules.specs.Turned.{number_in};

use rules::refusal::{Refusal, when};

// An address is 1 to 255 bytes.
pub const SHORTEST: u8 = 1;

#[tactic(auto, using(crate::proofs::EntryLaws::entry_end_beyond), unfolding(crate::specs::Walk::entry_end))]
// Past the entry at a place: a length byte of least or more (0 in the second book of Document 02, Eight), then as many bytes.
pub fn entry_end(least: u8, book: &[u8], at: usize) -> Option<usize>
    ensures place { unwrap_or result (length book.now + 1) ≡ entry_end least book.now at }
    ensures inside { IfSome result (λ end. (at < end) × (end ≤ length book.now)) }
{
    let n = *book.get(at)?;
    let end = at + 1 + (n as usize);
    (least <= n && end <= book.len()).then_some(end)
}

// Past n entries, the first of them at a place.
pub(crate) fn walk_from(least: u8, book: &[u8], from: usize, n: usize) -> Option<usize>
    ensures place { unwrap_or result (length book.now + 1) ≡ walked least book.now from n }
    ensures inside { from ≤ length book.now → IfSome result (λ end. end ≤ length book.now) }
{
    let mut at = from;
    for _ in 0..n {
        at = entry_end(least, book, at)?;
    }
    Some(at)
}

// Past n entries, from the book's start.
pub fn walk(least: u8, book: &[u8], n: usize) -> Option<usize>
    ensures place { unwrap_or result (length book.now + 1) ≡ walked least book.now 0 n }
    ensures inside { IfSome result (λ end. end ≤ length book.now) }
{
    walk_from(least, book, 0, n)
}

#[tactic(auto, using(crate::proofs::RefusalLaws::rest_whole, crate::proofs::RefusalLaws::walked_short))]
// 18, or where entry p of g starts: one walk over the book, to the entry, where there is one, and on over the rest.
pub(crate) fn place_in(book: &[u8], p: usize, g: usize) -> Result<usize, Refusal>
    ensures number { number_in result ≡ BadBook when not (is_book g book.now) }
    ensures place { p < g → IfOk result (λ at. at ≡ entry_at book.now p) }
    ensures inside { p < g → IfOk result (λ at. at + 1 + slice_index book.now at ≤ length book.now) }
{
    let before = p.min(g);
    let Some(at) = walk(SHORTEST, book, before) else {
        return Err(Refusal::BadBook);
    };
    let whole = walk_from(SHORTEST, book, at, g - before) == Some(book.len());
    when(Refusal::BadBook, !whole)?;
    Ok(at)
}
