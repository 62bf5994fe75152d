// Opening (Document 02, Three).
// Not one with held's, and no struct: two tables of next numbers are lent too, to read or to write as the call wants (host/pointer_desk.h).
ghost use Rattle.std.specs.Prelude.{◌≡◌};
ghost use Rattle.in_order.specs.Ordered.{lent_in_order, ordered};
ghost use Rattle.model.specs.Calls.{open_desk as open_of};
ghost use Rattle.rules.specs.Turned.{told};

use lent::cells::Cell;
use lent::desk::Lent;
use lent::numbered_slots::NumberedSlots;
use model::Posted;
use rules::answer::Accepted;
use rules::refusal::Refusal;
use tables::clear::clear;

#[tactic(auto, using(rules::proofs::TurnedLaws::err_unless), unfolding(model::specs::Calls::open_desk))]
// Every counter 0, every receive cell 1 at the owner and 0 elsewhere, every slot empty, every next number 0.
pub fn open_desk(
    s: u8,
    owners: &[u8],
    send: &mut [u16],
    receive: &mut [u8],
    pool: &mut [u8],
    posts: &mut [u16],
    takes: &mut [u16],
) -> Result<Accepted, Refusal>
    ensures { record { answer = told result; desk = lent_in_order s owners.now send.new receive.new pool.new posts.new takes.new }
        ≡ open_of ordered (lent_in_order s owners.now send.old receive.old pool.old posts.old takes.old) }
{
    let slots = NumberedSlots::new(&pool[..], &posts[..], &takes[..]);
    Lent::new(s, owners, &send[..], &receive[..], slots).opening()?;
    clear(send);
    u8::open(s, owners, receive);
    clear(pool);
    clear(posts);
    clear(takes);
    Ok(Accepted::new(0, Posted::Nothing))
}
