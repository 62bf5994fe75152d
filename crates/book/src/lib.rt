// The address book: an address as a part of the lent book, the check and the search (Document 01, The address book).
#![tactic(auto)]

mod bytes;
mod find;
mod walk;

ghost use Rattle.std.specs.Prelude.{◌≡◌, ◌+◌, ◌≤◌, length, slice_index, IfOk};
ghost use Rattle.rules.specs.Turned.{number_in, told};
ghost use Rattle.book.specs.Part.{seen};
ghost use Rattle.book.specs.Book.{entry_at, book_refusal, address_number, address_part, check_answer, search_answer};

use crate::find::{has_twins, listed};
use crate::walk::{SHORTEST, place_in, walk};
use model::Posted;
use rules::answer::Accepted;
use rules::refusal::{Refusal, when};
use tables::owners::owners_refusal;

#[tactic(auto, using(crate::proofs::TurnedLaws::refusing, crate::proofs::RefusalLaws::walked_whole), unfolding(crate::specs::Book::book_refusal))]
// 1, 2 of S and the owners, then 18.
fn book_refusal(s: u8, owners: &[u8], book: &[u8]) -> Result<(), Refusal>
    ensures { number_in result ≡ book_refusal s owners.now book.now }
{
    owners_refusal(s, owners)?;
    let whole = walk(SHORTEST, book, owners.len()) == Some(book.len());
    when(Refusal::BadBook, !whole)
}

#[tactic(auto, using(crate::proofs::TurnedLaws::refusing, crate::proofs::RefusalLaws::address_seen, crate::proofs::RefusalLaws::address_named), unfolding(crate::specs::Book::address_number, crate::specs::Book::book_refusal))]
// The question for an address: 1, 2, 18, then 3; and where the entry of a pointer starts.
pub fn entry_place(s: u8, owners: &[u8], book: &[u8], pointer: u8) -> Result<usize, Refusal>
    ensures number { number_in result ≡ address_number s owners.now book.now pointer }
    ensures place { IfOk result (λ at. at ≡ entry_at book.now pointer) }
    ensures inside { IfOk result (λ at. at + 1 + slice_index book.now at ≤ length book.now) }
{
    owners_refusal(s, owners)?;
    let g = owners.len();
    let p = pointer as usize;
    let at = place_in(book, p, g)?;
    when(Refusal::BadName, g <= p)?;
    Ok(at)
}

#[tactic(auto, using(crate::proofs::AddressLaws::part_given_lem))]
// The question for an address: the address as that part of the lent book.
pub fn address<'a>(s: u8, owners: &[u8], book: &'a [u8], pointer: u8) -> Result<&'a [u8], Refusal>
    ensures number { number_in result ≡ address_number s owners.now book.entry.now pointer }
    ensures part { IfOk result (λ part. seen part ≡ address_part s owners.now (seen book.entry) pointer) }
{
    let at = entry_place(s, owners, book, pointer)?;
    let start = at + 1;
    let end = start + (book[at] as usize);
    Ok(&book[start..end])
}

#[tactic(auto, using(crate::proofs::AddressLaws::part_refused))]
// That part as a host sees it; after a refusal it is the empty part at the book's start, as no address is.
pub fn address_part<'a>(s: u8, owners: &[u8], book: &'a [u8], pointer: u8) -> &'a [u8]
    ensures { seen result ≡ address_part s owners.now (seen book.entry) pointer }
{
    match address(s, owners, book, pointer) {
        Ok(part) => part,
        Err(_) => &book[0..0],
    }
}

#[tactic(auto, using(crate::proofs::TurnedLaws::refusing, crate::proofs::RefusalLaws::book_passed, crate::proofs::AnswerLaws::telling), unfolding(crate::specs::Book::check_number, crate::specs::Book::check_answer))]
// A check of the book.
pub fn check(s: u8, owners: &[u8], book: &[u8]) -> Result<Accepted, Refusal>
    ensures { told result ≡ check_answer s owners.now book.now }
{
    book_refusal(s, owners, book)?;
    when(Refusal::Twins, has_twins(owners, book))?;
    Ok(Accepted::new(0, Posted::Nothing))
}

#[tactic(auto, using(crate::proofs::TurnedLaws::refusing, crate::proofs::AnswerLaws::telling), unfolding(crate::specs::Book::book_refusal, crate::specs::Book::search_number, crate::specs::Book::search_answer))]
// A search by owner and whole address.
pub fn search(
    s: u8,
    owners: &[u8],
    book: &[u8],
    owner: u8,
    wanted: &[u8],
) -> Result<Accepted, Refusal>
    ensures { told result ≡ search_answer s owners.now book.now owner wanted.now }
{
    owners_refusal(s, owners)?;
    let found = listed(owners, book, owner, wanted)?;
    when(Refusal::BadName, s <= owner)?;
    let p = found.ok_or(Refusal::NotListed)?;
    Ok(Accepted::new(p as u16, Posted::Nothing))
}
