// Share and sheet of the desk on words (Document 02, Five).
ghost use Rattle.std.specs.Prelude.{◌≡◌};
ghost use Rattle.model.specs.Survey.{share as share_of};
ghost use Rattle.word_cells.specs.WordCells.{lent_in_words, words as words_of};
ghost use Rattle.pointer_desk.specs.Boundary.{flat_share, sheet_given};

use crate::counts::{DeskShare, write_sheet};
use lent::desk::Lent;
use lent::held_slots::HeldSlots;

// A share.
#[unsafe(no_mangle)]
pub extern "C" fn desk_words_share(
    sites: u8,
    owners: &[u8],
    send: &[u16],
    words: &[u64],
    pool: &[u8],
    site: u8,
    pointer: u8,
) -> DeskShare
    ensures { result ≡ flat_share (share_of words_of (lent_in_words sites owners.now send.now words.now pool.now) site pointer) }
{
    let desk = Lent::new(sites, owners, send, words, HeldSlots::new(pool));
    desk.share(site, pointer).into()
}

// A sheet of 192 counts; another length gives 1, and nothing is written.
#[unsafe(no_mangle)]
pub extern "C" fn desk_words_sheet(
    sites: u8,
    owners: &[u8],
    send: &[u16],
    words: &[u64],
    pool: &[u8],
    pointer: u8,
    sheet: &mut [u32],
) -> u8
    ensures { record { number = result; counts = sheet.new }
        ≡ sheet_given words_of (lent_in_words sites owners.now send.now words.now pool.now) pointer sheet.old }
{
    let desk = Lent::new(sites, owners, send, words, HeldSlots::new(pool));
    write_sheet(&desk, pointer, sheet)
}
