// What the pool enters in a sheet (Document 01, Share and sheet).
ghost use Rattle.std.specs.Prelude.{◌≡◌, ℕ, ◌+◌, ◌≤◌, ◌<◌};
ghost use Rattle.model.specs.Tables.{slots_of, message_at};
ghost use Rattle.model.specs.Survey.{column as column_of, blank_sheet};
ghost use Rattle.slots.specs.FirstSlots.{entries as entries_of};
ghost use Rattle.slots.specs.Within.{Within};

use crate::entry::{amount, column, row};
use crate::slot::read_slot;

// Three rows of 64 zeros.
pub fn blank() -> [[u32; 64]; 3]
    ensures { result ≡ blank_sheet }
{
    [[0; 64]; 3]
}

// A slot's message, in the row of its kind and its column.
fn enter<const W: usize>(rows: &mut [[u32; 64]; 3], pool: &[u8], slot: usize, p: u8)
    requires within { Within W pool.now slot (slot + 1) }
    requires site { column_of (message_at W pool.now slot) < 64 }
    requires so_far { rows.old ≡ entries_of (message_at W pool.now) p slot }
    ensures { rows.new ≡ entries_of (message_at W pool.now) p (slot + 1) }
{
    let m = read_slot::<W>(pool, slot);
    rows[row(m)][column(m) as usize] += amount(p, m);
}

#[tactic(auto, using(crate::proofs::SheetLaws::entries_kept, crate::proofs::PointerLaws::other_pointer))]
// The slots from a place to before an end, one by one. Most slots are of another pointer, so that is asked first.
fn enter_below<const W: usize>(
    rows: &mut [[u32; 64]; 3],
    pool: &[u8],
    from: usize,
    end: usize,
    p: u8,
)
    requires within { Within W pool.now from end }
    requires sites { (slot : ℕ) → slot < slots_of W pool.now → column_of (message_at W pool.now slot) < 64 }
    requires so_far { rows.old ≡ entries_of (message_at W pool.now) p from }
    ensures { rows.new ≡ entries_of (message_at W pool.now) p end }
{
    for slot in from..end {
        if pool[slot * W + 4] == p {
            enter::<W>(rows, pool, slot, p);
        }
    }
}

#[tactic(auto, using(crate::proofs::SheetLaws::no_entries))]
// One pass over the pool: each message of the pointer, in the row of its kind and its column.
// Four slots a turn, which the compiler unrolls: of 1,024 slots 2,968 instructions; one by one 5,264.
// Inlined up to the export, which saves copies of the rows: a sheet of 16 slots takes 548 instructions; as calls 820.
#[inline(always)]
pub fn entries<const W: usize>(pool: &[u8], p: u8) -> [[u32; 64]; 3]
    requires wide { 5 ≤ W }
    requires few { slots_of W pool.now ≤ 1024 }
    requires sites { (slot : ℕ) → slot < slots_of W pool.now → column_of (message_at W pool.now slot) < 64 }
    ensures { result ≡ entries_of (message_at W pool.now) p (slots_of W pool.now) }
{
    let slots = pool.len() / W;
    let turns = slots / 4;
    let mut rows = blank();
    for t in 0..turns {
        enter_below::<W>(&mut rows, pool, t * 4, t * 4 + 4, p);
    }
    enter_below::<W>(&mut rows, pool, turns * 4, slots, p);
    rows
}
