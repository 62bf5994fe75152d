// The next numbers of the ordered pairs of sites, pair (a, b) at a x S + b (Document 02, Three).
ghost use Rattle.std.specs.Prelude.{◌≡◌};
ghost use Rattle.model.specs.Tables.{place};
ghost use Rattle.model.specs.Messages.{sender as sender_of, receiver as receiver_of};
ghost use Rattle.in_order.specs.Ordered.{next as next_of, number_for, advanced};
ghost use Rattle.numbered.specs.Pairs.{HasPair};

use model::Posted;
use rules::message::{is_nothing, receiver, sender};
use tables::place::place_of;

// Where the number of a message's pair stands.
pub fn pair_of(s: u8, m: Posted) -> usize
    ensures { result ≡ place s (sender_of m) (receiver_of m) }
{
    place_of(s as usize, sender(m), receiver(m))
}

// Numbers wrap from 65,535 to 0.
fn next(n: u16) -> u16
    ensures { result ≡ next_of n }
{
    n.wrapping_add(1)
}

// The number that is stored with a message: its pair's; zero where there is none.
pub fn number_for(s: u8, numbers: &[u16], m: Posted) -> u16
    requires { HasPair s numbers.now m }
    ensures { result ≡ number_for s numbers.now m }
{
    if is_nothing(m) {
        return 0;
    }
    numbers[pair_of(s, m)]
}

// A message advances its pair's number; none advances nothing.
pub fn advance(s: u8, numbers: &mut [u16], m: Posted)
    requires { HasPair s numbers.old m }
    ensures { numbers.new ≡ advanced s numbers.old m }
{
    if is_nothing(m) {
        return;
    }
    let pair = pair_of(s, m);
    numbers[pair] = next(numbers[pair]);
}
