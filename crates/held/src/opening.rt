// Opening (Document 01, What the host lends).
// No struct of S, owners and tables: C lends them one by one, and which of them may be written differs from call to call (host/pointer_desk.h).
ghost use Rattle.std.specs.Prelude.{◌≡◌};
ghost use Rattle.model.specs.Flat.{held_slots};
ghost use Rattle.model.specs.Tables.{lent};
ghost use Rattle.model.specs.Parts.{desk_of};
ghost use Rattle.model.specs.Calls.{open_desk as open_of};
ghost use Rattle.rules.specs.Turned.{told};

use lent::cells::Cell;
use lent::desk::Lent;
use lent::held_slots::HeldSlots;
use model::Posted;
use rules::answer::Accepted;
use rules::refusal::Refusal;
use tables::clear::clear;

#[tactic(auto, using(rules::proofs::TurnedLaws::err_unless), unfolding(model::specs::Calls::open_desk))]
// Every counter 0, every receive cell 1 at the owner and 0 elsewhere, every slot empty.
pub fn open_desk<C: Cell>(
    s: u8,
    owners: &[u8],
    send: &mut [u16],
    receive: &mut [C],
    pool: &mut [u8],
) -> Result<Accepted, Refusal>
    ensures { record { answer = told result; desk = lent s owners.now send.new receive.new pool.new }
        ≡ open_of (desk_of C.table held_slots) (lent s owners.now send.old receive.old pool.old) }
{
    let slots = HeldSlots::new(&pool[..]);
    Lent::new(s, owners, &send[..], &receive[..], slots).opening()?;
    clear(send);
    C::open(s, owners, receive);
    clear(pool);
    Ok(Accepted::new(0, Posted::Nothing))
}
