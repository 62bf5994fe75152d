// Receive (Document 02, Three).
// Not one with held's, and no struct: two tables of next numbers are lent too, to read or to write as the call wants (host/pointer_desk.h).
ghost use Rattle.std.specs.Prelude.{◌≡◌};
ghost use Rattle.in_order.specs.Ordered.{lent_in_order, ordered};
ghost use Rattle.model.specs.Calls.{receive as receive_of};
ghost use Rattle.rules.specs.Turned.{told};

use lent::cells::Cell;
use lent::desk::Lent;
use lent::numbered_slots::NumberedSlots;
use numbered::pairs::advance;
use numbered::post::post;
use rules::answer::Accepted;
use rules::refusal::Refusal;
use slots::slot::read_slot;

#[tactic(auto, using(rules::proofs::TurnedLaws::err_unless), unfolding(model::specs::Calls::receive))]
// As in document 01, but 21 in Held's place; the message's pair advances to receive, and the reply is numbered by its own.
pub fn receive(
    s: u8,
    owners: &[u8],
    send: &mut [u16],
    receive: &mut [u8],
    pool: &mut [u8],
    posts: &mut [u16],
    takes: &mut [u16],
    slot: u16,
) -> Result<Accepted, Refusal>
    ensures { record { answer = told result; desk = lent_in_order s owners.now send.new receive.new pool.new posts.new takes.new }
        ≡ receive_of ordered (lent_in_order s owners.now send.old receive.old pool.old posts.old takes.old) slot }
{
    let slots = NumberedSlots::new(&pool[..], &posts[..], &takes[..]);
    let change = Lent::new(s, owners, &send[..], &receive[..], slots).receive(slot)?;
    send[change.at] = change.counter;
    u8::set_in(
        owners.len(),
        receive,
        change.site,
        change.pointer,
        change.cell,
    );
    advance(s, takes, read_slot::<7>(&pool[..], change.slot));
    post(s, pool, posts, change.slot, change.answer.posted);
    Ok(change.answer)
}
