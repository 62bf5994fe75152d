// The calls of the desk on words, and the count of holders (Document 02, Five).
ghost use Rattle.std.specs.Prelude.{◌≡◌};
ghost use Rattle.model.specs.Calls.{open_desk, make_copy, receive as receive_of, delete as delete_of, ask as ask_of};
ghost use Rattle.word_cells.specs.WordCells.{lent_in_words, words as words_of, count_holders};
ghost use Rattle.pointer_desk.specs.Boundary.{given};

use crate::answer::DeskAnswer;
use held::copy::make_copy;
use held::delete::delete;
use held::opening::open_desk;
use held::receive::receive as receive_slot;
use lent::desk::Lent;
use lent::held_slots::HeldSlots;

// An opening.
#[unsafe(no_mangle)]
pub extern "C" fn desk_words_open(
    sites: u8,
    owners: &[u8],
    send: &mut [u16],
    words: &mut [u64],
    pool: &mut [u8],
) -> DeskAnswer
    ensures { record { answer = result; desk = lent_in_words sites owners.now send.new words.new pool.new }
        ≡ given (open_desk words_of (lent_in_words sites owners.now send.old words.old pool.old)) }
{
    open_desk(sites, owners, send, words, pool).into()
}

// Make copy.
#[unsafe(no_mangle)]
pub extern "C" fn desk_words_make_copy(
    sites: u8,
    owners: &[u8],
    send: &mut [u16],
    words: &[u64],
    pool: &mut [u8],
    from: u8,
    to: u8,
    pointer: u8,
) -> DeskAnswer
    ensures { record { answer = result; desk = lent_in_words sites owners.now send.new words.now pool.new }
        ≡ given (make_copy words_of (lent_in_words sites owners.now send.old words.now pool.old) from to pointer) }
{
    make_copy(sites, owners, send, words, pool, from, to, pointer).into()
}

// Receive.
#[unsafe(no_mangle)]
pub extern "C" fn desk_words_receive(
    sites: u8,
    owners: &[u8],
    send: &mut [u16],
    words: &mut [u64],
    pool: &mut [u8],
    slot: u16,
) -> DeskAnswer
    ensures { record { answer = result; desk = lent_in_words sites owners.now send.new words.new pool.new }
        ≡ given (receive_of words_of (lent_in_words sites owners.now send.old words.old pool.old) slot) }
{
    receive_slot(sites, owners, send, words, pool, slot).into()
}

// Delete.
#[unsafe(no_mangle)]
pub extern "C" fn desk_words_delete(
    sites: u8,
    owners: &[u8],
    send: &[u16],
    words: &mut [u64],
    pool: &mut [u8],
    site: u8,
    pointer: u8,
) -> DeskAnswer
    ensures { record { answer = result; desk = lent_in_words sites owners.now send.now words.new pool.new }
        ≡ given (delete_of words_of (lent_in_words sites owners.now send.now words.old pool.old) site pointer) }
{
    delete(sites, owners, send, words, pool, site, pointer).into()
}

// Ask.
#[unsafe(no_mangle)]
pub extern "C" fn desk_words_ask(
    sites: u8,
    owners: &[u8],
    send: &[u16],
    words: &[u64],
    pool: &[u8],
    site: u8,
    pointer: u8,
) -> DeskAnswer
    ensures { record { answer = result; desk = lent_in_words sites owners.now send.now words.now pool.now }
        ≡ given (ask_of words_of (lent_in_words sites owners.now send.now words.now pool.now) site pointer) }
{
    let desk = Lent::new(sites, owners, send, words, HeldSlots::new(pool));
    desk.ask(site, pointer).into()
}

// The count of holders.
#[unsafe(no_mangle)]
pub extern "C" fn desk_words_count(
    sites: u8,
    owners: &[u8],
    send: &[u16],
    words: &[u64],
    pool: &[u8],
    pointer: u8,
) -> DeskAnswer
    ensures { record { answer = result; desk = lent_in_words sites owners.now send.now words.now pool.now }
        ≡ given (count_holders (lent_in_words sites owners.now send.now words.now pool.now) pointer) }
{
    let desk = Lent::new(sites, owners, send, words, HeldSlots::new(pool));
    desk.count_holders(pointer).into()
}
