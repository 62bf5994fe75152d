// The calls of the machine (Document 01, What the host lends, The calls).
ghost use Rattle.std.specs.Prelude.{◌≡◌};
ghost use Rattle.model.specs.Tables.{lent};
ghost use Rattle.model.specs.Calls.{open_desk, make_copy, receive as receive_of, delete as delete_of, ask as ask_of};
ghost use Rattle.model.specs.Flat.{flat};
ghost use Rattle.pointer_desk.specs.Boundary.{given};

use crate::answer::DeskAnswer;
use held::copy::make_copy;
use held::delete::delete;
use held::opening::open_desk;
use held::receive::receive as receive_slot;
use lent::desk::Lent;
use lent::held_slots::HeldSlots;

// An opening.
#[unsafe(no_mangle)]
pub extern "C" fn desk_open(
    sites: u8,
    owners: &[u8],
    send: &mut [u16],
    receive: &mut [u8],
    pool: &mut [u8],
) -> DeskAnswer
    ensures { record { answer = result; desk = lent sites owners.now send.new receive.new pool.new }
        ≡ given (open_desk flat (lent sites owners.now send.old receive.old pool.old)) }
{
    open_desk(sites, owners, send, receive, pool).into()
}

// Make copy.
#[unsafe(no_mangle)]
pub extern "C" fn desk_make_copy(
    sites: u8,
    owners: &[u8],
    send: &mut [u16],
    receive: &[u8],
    pool: &mut [u8],
    from: u8,
    to: u8,
    pointer: u8,
) -> DeskAnswer
    ensures { record { answer = result; desk = lent sites owners.now send.new receive.now pool.new }
        ≡ given (make_copy flat (lent sites owners.now send.old receive.now pool.old) from to pointer) }
{
    make_copy(sites, owners, send, receive, pool, from, to, pointer).into()
}

// Receive.
#[unsafe(no_mangle)]
pub extern "C" fn desk_receive(
    sites: u8,
    owners: &[u8],
    send: &mut [u16],
    receive: &mut [u8],
    pool: &mut [u8],
    slot: u16,
) -> DeskAnswer
    ensures { record { answer = result; desk = lent sites owners.now send.new receive.new pool.new }
        ≡ given (receive_of flat (lent sites owners.now send.old receive.old pool.old) slot) }
{
    receive_slot(sites, owners, send, receive, pool, slot).into()
}

// Delete.
#[unsafe(no_mangle)]
pub extern "C" fn desk_delete(
    sites: u8,
    owners: &[u8],
    send: &[u16],
    receive: &mut [u8],
    pool: &mut [u8],
    site: u8,
    pointer: u8,
) -> DeskAnswer
    ensures { record { answer = result; desk = lent sites owners.now send.now receive.new pool.new }
        ≡ given (delete_of flat (lent sites owners.now send.now receive.old pool.old) site pointer) }
{
    delete(sites, owners, send, receive, pool, site, pointer).into()
}

// Ask.
#[unsafe(no_mangle)]
pub extern "C" fn desk_ask(
    sites: u8,
    owners: &[u8],
    send: &[u16],
    receive: &[u8],
    pool: &[u8],
    site: u8,
    pointer: u8,
) -> DeskAnswer
    ensures { record { answer = result; desk = lent sites owners.now send.now receive.now pool.now }
        ≡ given (ask_of flat (lent sites owners.now send.now receive.now pool.now) site pointer) }
{
    let desk = Lent::new(sites, owners, send, receive, HeldSlots::new(pool));
    desk.ask(site, pointer).into()
}
