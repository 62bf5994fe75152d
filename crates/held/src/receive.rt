// Receive (Document 01, The calls).
// No struct of S, owners and tables: C lends them one by one, and which of them may be written differs from call to call (host/pointer_desk.h).
ghost use Rattle.std.specs.Prelude.{◌≡◌};
ghost use Rattle.model.specs.Flat.{held_slots};
ghost use Rattle.model.specs.Tables.{lent};
ghost use Rattle.model.specs.Parts.{desk_of};
ghost use Rattle.model.specs.Calls.{receive as receive_of};
ghost use Rattle.rules.specs.Turned.{told};

use lent::cells::Cell;
use lent::desk::Lent;
use lent::held_slots::HeldSlots;
use rules::answer::Accepted;
use rules::refusal::Refusal;
use slots::slot::write_slot;

#[tactic(auto, using(rules::proofs::TurnedLaws::err_unless), unfolding(model::specs::Calls::receive))]
// The receiver's counter and cell change as the message says; the reply takes the slot, or it becomes empty; the value is the slot.
pub fn receive<C: Cell>(
    s: u8,
    owners: &[u8],
    send: &mut [u16],
    receive: &mut [C],
    pool: &mut [u8],
    slot: u16,
) -> Result<Accepted, Refusal>
    ensures { record { answer = told result; desk = lent s owners.now send.new receive.new pool.new }
        ≡ receive_of (desk_of C.table held_slots) (lent s owners.now send.old receive.old pool.old) slot }
{
    let slots = HeldSlots::new(&pool[..]);
    let change = Lent::new(s, owners, &send[..], &receive[..], slots).receive(slot)?;
    send[change.at] = change.counter;
    C::set_in(
        owners.len(),
        receive,
        change.site,
        change.pointer,
        change.cell,
    );
    write_slot(pool, change.slot, change.answer.posted);
    Ok(change.answer)
}
