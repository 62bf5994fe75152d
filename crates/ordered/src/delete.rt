// Delete (Document 02, Three).
// Not one with held's, and no struct: two tables of next numbers are lent too, to read or to write as the call wants (host/pointer_desk.h).
ghost use Rattle.std.specs.Prelude.{◌≡◌};
ghost use Rattle.in_order.specs.Ordered.{lent_in_order, ordered};
ghost use Rattle.model.specs.Calls.{delete as delete_of};
ghost use Rattle.rules.specs.Turned.{told};

use lent::cells::Cell;
use lent::desk::Lent;
use lent::numbered_slots::NumberedSlots;
use numbered::post::post;
use rules::answer::Accepted;
use rules::refusal::Refusal;

#[tactic(auto, using(rules::proofs::TurnedLaws::err_unless), unfolding(model::specs::Calls::delete))]
// The receive cell becomes 0; DEC(site, owner), numbered by its pair, goes to the lowest empty slot; the value is that slot; how many were empty before is told.
pub fn delete(
    s: u8,
    owners: &[u8],
    send: &[u16],
    receive: &mut [u8],
    pool: &mut [u8],
    posts: &mut [u16],
    takes: &[u16],
    site: u8,
    pointer: u8,
) -> Result<Accepted, Refusal>
    ensures { record { answer = told result; desk = lent_in_order s owners.now send.now receive.new pool.new posts.new takes.now }
        ≡ delete_of ordered (lent_in_order s owners.now send.now receive.old pool.old posts.old takes.now) site pointer }
{
    let slots = NumberedSlots::new(&pool[..], &posts[..], takes);
    let change = Lent::new(s, owners, send, &receive[..], slots).delete(site, pointer)?;
    u8::set_in(
        owners.len(),
        receive,
        change.site,
        change.pointer,
        change.cell,
    );
    post(s, pool, posts, change.slot, change.answer.posted);
    Ok(change.answer)
}
