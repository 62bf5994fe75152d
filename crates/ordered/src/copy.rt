// Make copy (Document 02, Three).
// Not one with held's, and no struct: two tables of next numbers are lent too, to read or to write as the call wants (host/pointer_desk.h).
ghost use Rattle.std.specs.Prelude.{◌≡◌};
ghost use Rattle.in_order.specs.Ordered.{lent_in_order, ordered};
ghost use Rattle.model.specs.Calls.{make_copy as make_copy_of};
ghost use Rattle.rules.specs.Turned.{told};

use lent::desk::Lent;
use lent::numbered_slots::NumberedSlots;
use numbered::post::post;
use rules::answer::Accepted;
use rules::refusal::Refusal;

#[tactic(auto, using(rules::proofs::TurnedLaws::err_unless), unfolding(model::specs::Calls::make_copy))]
// The sender's counter rises by 1; COPY(from, to), numbered by its pair, goes to the lowest empty slot; the value is that slot; how many were empty before is told.
pub fn make_copy(
    s: u8,
    owners: &[u8],
    send: &mut [u16],
    receive: &[u8],
    pool: &mut [u8],
    posts: &mut [u16],
    takes: &[u16],
    from: u8,
    to: u8,
    pointer: u8,
) -> Result<Accepted, Refusal>
    ensures { record { answer = told result; desk = lent_in_order s owners.now send.new receive.now pool.new posts.new takes.now }
        ≡ make_copy_of ordered (lent_in_order s owners.now send.old receive.now pool.old posts.old takes.now) from to pointer }
{
    let slots = NumberedSlots::new(&pool[..], &posts[..], takes);
    let change = Lent::new(s, owners, &send[..], receive, slots).copy(from, to, pointer)?;
    send[change.at] = change.counter;
    post(s, pool, posts, change.slot, change.answer.posted);
    Ok(change.answer)
}
