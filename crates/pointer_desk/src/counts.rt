// Share and sheet (Document 01, Share and sheet).
ghost use Rattle.std.specs.Prelude.{◌≡◌, length};
ghost use Rattle.model.specs.Tables.{lent};
ghost use Rattle.model.specs.Survey.{share as share_of};
ghost use Rattle.model.specs.Flat.{flat};
ghost use Rattle.model.specs.Parts.{desk_of};
ghost use Rattle.lent.specs.Desks.{share_told};
ghost use Rattle.pointer_desk.specs.Boundary.{flat_share, row_by_row, sheet_given};

use lent::cells::Cell;
use lent::desk::Lent;
use lent::held_slots::HeldSlots;
use lent::pool::Slots;
use rules::refusal::Refusal;

// A number, and a signed whole number.
#[repr(C)]
#[derive(Clone, Copy)]
pub struct DeskShare {
    pub number: u8,
    pub share: i32,
}

// After a refusal the share is 0.
impl From<Result<i32, Refusal>> for DeskShare {
    ghost from_gives = { λ share flat. flat ≡ flat_share (share_told share) };

    fn from(share: Result<i32, Refusal>) -> DeskShare {
        match share {
            Ok(share) => DeskShare { number: 0, share },
            Err(refusal) => DeskShare {
                number: u8::from(refusal),
                share: 0,
            },
        }
    }
}

// A share.
#[unsafe(no_mangle)]
pub extern "C" fn desk_share(
    sites: u8,
    owners: &[u8],
    send: &[u16],
    receive: &[u8],
    pool: &[u8],
    site: u8,
    pointer: u8,
) -> DeskShare
    ensures { result ≡ flat_share (share_of flat (lent sites owners.now send.now receive.now pool.now) site pointer) }
{
    let desk = Lent::new(sites, owners, send, receive, HeldSlots::new(pool));
    desk.share(site, pointer).into()
}

#[tactic(auto, using(std::proofs::lemmas::Slice::overwrites, crate::proofs::SheetLaws::row_after_row))]
// A sheet as 192 counts, row by row.
fn write_rows(rows: &[[u32; 64]; 3], sheet: &mut [u32])
    requires { length sheet.old ≡ 192 }
    ensures { sheet.new ≡ row_by_row rows.now }
{
    // By place: what is written through chunks_exact_mut no contract of std tells.
    for (row, counts) in rows.iter().enumerate() {
        let start = row * 64;
        sheet[start..start + 64].copy_from_slice(counts);
    }
}

#[tactic(auto, using(crate::proofs::SheetLaws::blank_counts), unfolding(crate::specs::Boundary::sheet_given))]
// A sheet of 192 counts, all 0 after a refusal; another length gives 1, and nothing is written.
pub(crate) fn write_sheet<C: Cell, P: Slots>(
    desk: &Lent<'_, C, P>,
    pointer: u8,
    sheet: &mut [u32],
) -> u8
    ensures { record { number = result; counts = sheet.new } ≡ sheet_given (desk_of C.table P.pool) desk.now pointer sheet.old }
{
    if sheet.len() != 192 {
        return u8::from(Refusal::BadShape);
    }
    match desk.sheet(pointer) {
        Ok(rows) => {
            write_rows(&rows, sheet);
            0
        }
        Err(refusal) => {
            sheet.fill(0);
            u8::from(refusal)
        }
    }
}

// A sheet of 192 counts; another length gives 1, and nothing is written.
#[unsafe(no_mangle)]
pub extern "C" fn desk_sheet(
    sites: u8,
    owners: &[u8],
    send: &[u16],
    receive: &[u8],
    pool: &[u8],
    pointer: u8,
    sheet: &mut [u32],
) -> u8
    ensures { record { number = result; counts = sheet.new }
        ≡ sheet_given flat (lent sites owners.now send.now receive.now pool.now) pointer sheet.old }
{
    let desk = Lent::new(sites, owners, send, receive, HeldSlots::new(pool));
    write_sheet(&desk, pointer, sheet)
}
