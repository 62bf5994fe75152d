// Make copy (Document 01, The calls).
// No struct of S, owners and tables: C lends them one by one, and which of them may be written differs from call to call (host/pointer_desk.h).
ghost use Rattle.std.specs.Prelude.{◌≡◌};
ghost use Rattle.model.specs.Flat.{held_slots};
ghost use Rattle.model.specs.Tables.{lent};
ghost use Rattle.model.specs.Parts.{desk_of};
ghost use Rattle.model.specs.Calls.{make_copy as make_copy_of};
ghost use Rattle.rules.specs.Turned.{told};

use lent::cells::Cell;
use lent::desk::Lent;
use lent::held_slots::HeldSlots;
use rules::answer::Accepted;
use rules::refusal::Refusal;
use slots::slot::write_slot;

#[tactic(auto, using(rules::proofs::TurnedLaws::err_unless), unfolding(model::specs::Calls::make_copy))]
// The sender's counter rises by 1; COPY(from, to) goes to the lowest empty slot; the value is that slot; how many were empty before is told.
pub fn make_copy<C: Cell>(
    s: u8,
    owners: &[u8],
    send: &mut [u16],
    receive: &[C],
    pool: &mut [u8],
    from: u8,
    to: u8,
    pointer: u8,
) -> Result<Accepted, Refusal>
    ensures { record { answer = told result; desk = lent s owners.now send.new receive.now pool.new }
        ≡ make_copy_of (desk_of C.table held_slots) (lent s owners.now send.old receive.now pool.old) from to pointer }
{
    let slots = HeldSlots::new(&pool[..]);
    let change = Lent::new(s, owners, &send[..], receive, slots).copy(from, to, pointer)?;
    send[change.at] = change.counter;
    write_slot(pool, change.slot, change.answer.posted);
    Ok(change.answer)
}
