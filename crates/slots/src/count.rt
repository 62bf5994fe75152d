// What the pool counts in a share (Document 01, Share and sheet).
ghost use Rattle.std.specs.Prelude.{◌≡◌, ◌≤◌, ◌<◌};
ghost use Rattle.model.specs.Tables.{slots_of, message_at};
ghost use Rattle.slots.specs.Within.{Within};
ghost use Rattle.slots.specs.Counted.{counted, counts_of};

use crate::slot::read_slot;
use crate::weight::{minus, plus};
use model::Posted;

// What the pool adds to a share and takes from it.
#[derive(Clone, Copy)]
pub struct Counts {
    pub plus: u32,
    pub minus: u32,
}

impl Counts {
    // The counts with one message more. Site, owner and pointer stay three numbers: by a struct of them each clause is longer.
    fn with(self, site: u8, owner: u8, p: u8, m: Posted) -> Counts
        requires { (self.plus < 1024) × (self.minus < 1024) }
        ensures { result ≡ counted site owner p self m }
    {
        Counts {
            plus: self.plus + plus(site, owner, p, m),
            minus: self.minus + minus(site, owner, p, m),
        }
    }
}

// The counts of the slots below an end, of those below a place; one by one. Most slots are of another pointer, so that is asked first.
fn count_below<const W: usize>(
    first: Counts,
    pool: &[u8],
    from: usize,
    end: usize,
    site: u8,
    owner: u8,
    p: u8,
) -> Counts
    requires within { Within W pool.now from end }
    requires so_far { first ≡ counts_of (message_at W pool.now) from site owner p }
    ensures { result ≡ counts_of (message_at W pool.now) end site owner p }
{
    let mut counts = first;
    for slot in from..end {
        if pool[slot * W + 4] == p {
            counts = counts.with(site, owner, p, read_slot::<W>(pool, slot));
        }
    }
    counts
}

// One pass over the pool.
// Four slots a turn, which the compiler unrolls: of 1,024 slots 2,909 instructions; one by one 5,192.
pub fn count<const W: usize>(pool: &[u8], site: u8, owner: u8, p: u8) -> Counts
    requires wide { 5 ≤ W }
    requires few { slots_of W pool.now ≤ 1024 }
    ensures { result ≡ counts_of (message_at W pool.now) (slots_of W pool.now) site owner p }
{
    let slots = pool.len() / W;
    let turns = slots / 4;
    let mut counts = Counts { plus: 0, minus: 0 };
    for t in 0..turns {
        counts = count_below::<W>(counts, pool, t * 4, t * 4 + 4, site, owner, p);
    }
    count_below::<W>(counts, pool, turns * 4, slots, site, owner, p)
}
