// Share and sheet of the in-order desk (Document 02, Three).
ghost use Rattle.std.specs.Prelude.{◌≡◌};
ghost use Rattle.model.specs.Survey.{share as share_of};
ghost use Rattle.in_order.specs.Ordered.{lent_in_order, ordered};
ghost use Rattle.pointer_desk.specs.Boundary.{flat_share, sheet_given};

use crate::counts::{DeskShare, write_sheet};
use lent::desk::Lent;
use lent::numbered_slots::NumberedSlots;

// A share.
#[unsafe(no_mangle)]
pub extern "C" fn desk_ordered_share(
    sites: u8,
    owners: &[u8],
    send: &[u16],
    receive: &[u8],
    pool: &[u8],
    posts: &[u16],
    takes: &[u16],
    site: u8,
    pointer: u8,
) -> DeskShare
    ensures { result ≡ flat_share (share_of ordered (lent_in_order sites owners.now send.now receive.now pool.now posts.now takes.now) site pointer) }
{
    let desk = Lent::new(
        sites,
        owners,
        send,
        receive,
        NumberedSlots::new(pool, posts, takes),
    );
    desk.share(site, pointer).into()
}

// A sheet of 192 counts; another length gives 1, and nothing is written.
#[unsafe(no_mangle)]
pub extern "C" fn desk_ordered_sheet(
    sites: u8,
    owners: &[u8],
    send: &[u16],
    receive: &[u8],
    pool: &[u8],
    posts: &[u16],
    takes: &[u16],
    pointer: u8,
    sheet: &mut [u32],
) -> u8
    ensures { record { number = result; counts = sheet.new }
        ≡ sheet_given ordered (lent_in_order sites owners.now send.now receive.now pool.now posts.now takes.now) pointer sheet.old }
{
    let desk = Lent::new(
        sites,
        owners,
        send,
        receive,
        NumberedSlots::new(pool, posts, takes),
    );
    write_sheet(&desk, pointer, sheet)
}
