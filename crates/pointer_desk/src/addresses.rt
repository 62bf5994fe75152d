// The address book (Document 01, The address book).
ghost use Rattle.std.specs.Prelude.{◌≡◌, IfOk};
ghost use Rattle.rules.specs.Turned.{number_in};
ghost use Rattle.book.specs.Book.{address_number, check_answer, search_answer};
ghost use Rattle.pointer_desk.specs.Boundary.{flat_answer, part_given};

use crate::answer::DeskAnswer;
use book::{address_part, check, entry_place, search};
use rules::refusal::Refusal;

// A number, and a part of the lent book: where it starts, and its length.
#[repr(C)]
#[derive(Clone, Copy)]
pub struct DeskPart {
    pub number: u8,
    pub at: usize,
    pub length: usize,
}

#[tactic(auto, using(crate::proofs::PartLaws::part_handed))]
// The part that is handed out: behind the entry's length byte, as long as it is.
fn part(sites: u8, owners: &[u8], book: &[u8], pointer: u8) -> Result<DeskPart, Refusal>
    ensures number { number_in result ≡ address_number sites owners.now book.now pointer }
    ensures part { IfOk result (λ part. part ≡ part_given sites owners.now book.now pointer) }
{
    let entry = entry_place(sites, owners, book, pointer)?;
    let part = address_part(sites, owners, book, pointer);
    Ok(DeskPart {
        number: 0,
        at: entry + 1,
        length: part.len(),
    })
}

#[tactic(auto, using(crate::proofs::PartLaws::no_part))]
// The question for an address: the part that is handed out; it is empty after a refusal, as no address is.
#[unsafe(no_mangle)]
pub extern "C" fn desk_book_address(sites: u8, owners: &[u8], book: &[u8], pointer: u8) -> DeskPart
    ensures { result ≡ part_given sites owners.now book.now pointer }
{
    part(sites, owners, book, pointer).unwrap_or_else(|refusal| DeskPart {
        number: u8::from(refusal),
        at: 0,
        length: 0,
    })
}

// A check of the book.
#[unsafe(no_mangle)]
pub extern "C" fn desk_book_check(sites: u8, owners: &[u8], book: &[u8]) -> DeskAnswer
    ensures { result ≡ flat_answer (check_answer sites owners.now book.now) }
{
    check(sites, owners, book).into()
}

// A search by owner and whole address.
#[unsafe(no_mangle)]
pub extern "C" fn desk_book_search(
    sites: u8,
    owners: &[u8],
    book: &[u8],
    owner: u8,
    address: &[u8],
) -> DeskAnswer
    ensures { result ≡ flat_answer (search_answer sites owners.now book.now owner address.now) }
{
    search(sites, owners, book, owner, address).into()
}
