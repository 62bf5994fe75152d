// The calls of the in-order desk (Document 02, Three).
ghost use Rattle.std.specs.Prelude.{◌≡◌};
ghost use Rattle.model.specs.Calls.{open_desk, make_copy, receive as receive_of, delete as delete_of, ask as ask_of};
ghost use Rattle.in_order.specs.Ordered.{lent_in_order, ordered};
ghost use Rattle.pointer_desk.specs.Boundary.{given_in_order};

use crate::answer::DeskOrderedAnswer;
use lent::desk::Lent;
use lent::numbered_slots::NumberedSlots;
use ordered::copy::make_copy;
use ordered::delete::delete;
use ordered::opening::open_desk;
use ordered::receive::receive as receive_slot;

// An opening.
#[unsafe(no_mangle)]
pub extern "C" fn desk_ordered_open(
    sites: u8,
    owners: &[u8],
    send: &mut [u16],
    receive: &mut [u8],
    pool: &mut [u8],
    posts: &mut [u16],
    takes: &mut [u16],
) -> DeskOrderedAnswer
    ensures { record { answer = result; desk = lent_in_order sites owners.now send.new receive.new pool.new posts.new takes.new }
        ≡ given_in_order (open_desk ordered (lent_in_order sites owners.now send.old receive.old pool.old posts.old takes.old)) }
{
    open_desk(sites, owners, send, receive, pool, posts, takes).into()
}

// Make copy.
#[unsafe(no_mangle)]
pub extern "C" fn desk_ordered_make_copy(
    sites: u8,
    owners: &[u8],
    send: &mut [u16],
    receive: &[u8],
    pool: &mut [u8],
    posts: &mut [u16],
    takes: &[u16],
    from: u8,
    to: u8,
    pointer: u8,
) -> DeskOrderedAnswer
    ensures { record { answer = result; desk = lent_in_order sites owners.now send.new receive.now pool.new posts.new takes.now }
        ≡ given_in_order (make_copy ordered (lent_in_order sites owners.now send.old receive.now pool.old posts.old takes.now) from to pointer) }
{
    make_copy(
        sites, owners, send, receive, pool, posts, takes, from, to, pointer,
    )
    .into()
}

// Receive.
#[unsafe(no_mangle)]
pub extern "C" fn desk_ordered_receive(
    sites: u8,
    owners: &[u8],
    send: &mut [u16],
    receive: &mut [u8],
    pool: &mut [u8],
    posts: &mut [u16],
    takes: &mut [u16],
    slot: u16,
) -> DeskOrderedAnswer
    ensures { record { answer = result; desk = lent_in_order sites owners.now send.new receive.new pool.new posts.new takes.new }
        ≡ given_in_order (receive_of ordered (lent_in_order sites owners.now send.old receive.old pool.old posts.old takes.old) slot) }
{
    receive_slot(sites, owners, send, receive, pool, posts, takes, slot).into()
}

// Delete.
#[unsafe(no_mangle)]
pub extern "C" fn desk_ordered_delete(
    sites: u8,
    owners: &[u8],
    send: &[u16],
    receive: &mut [u8],
    pool: &mut [u8],
    posts: &mut [u16],
    takes: &[u16],
    site: u8,
    pointer: u8,
) -> DeskOrderedAnswer
    ensures { record { answer = result; desk = lent_in_order sites owners.now send.now receive.new pool.new posts.new takes.now }
        ≡ given_in_order (delete_of ordered (lent_in_order sites owners.now send.now receive.old pool.old posts.old takes.now) site pointer) }
{
    delete(
        sites, owners, send, receive, pool, posts, takes, site, pointer,
    )
    .into()
}

// Ask.
#[unsafe(no_mangle)]
pub extern "C" fn desk_ordered_ask(
    sites: u8,
    owners: &[u8],
    send: &[u16],
    receive: &[u8],
    pool: &[u8],
    posts: &[u16],
    takes: &[u16],
    site: u8,
    pointer: u8,
) -> DeskOrderedAnswer
    ensures { record { answer = result; desk = lent_in_order sites owners.now send.now receive.now pool.now posts.now takes.now }
        ≡ given_in_order (ask_of ordered (lent_in_order sites owners.now send.now receive.now pool.now posts.now takes.now) site pointer) }
{
    let desk = Lent::new(
        sites,
        owners,
        send,
        receive,
        NumberedSlots::new(pool, posts, takes),
    );
    desk.ask(site, pointer).into()
}
