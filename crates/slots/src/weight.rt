// What one message counts in a share: scalars and the message alone, no table (Document 01, Share and sheet).
ghost use Rattle.std.specs.Prelude.{◌≡◌, ◌+◌, ◌<◌};
ghost use Rattle.model.specs.Survey.{copies, decs, inc_decs, balance as balance_of};

use model::Posted;
use rules::message::is_inc_dec;

// Plus: a DEC from the site to the owner, a COPY from the owner to it.
pub fn plus(site: u8, owner: u8, p: u8, m: Posted) -> u32
    ensures { result ≡ decs site owner p m + copies owner site p m }
{
    match m {
        Posted::Copy { from, to, pointer } => {
            u32::from((from == owner) & (to == site) & (pointer == p))
        }
        Posted::Dec { from, to, pointer } => {
            u32::from((from == site) & (to == owner) & (pointer == p))
        }
        Posted::IncDec { .. } | Posted::Nothing => 0,
    }
}

// Minus: an INC_DEC from the site to the owner, with any third site.
pub fn minus(site: u8, owner: u8, p: u8, m: Posted) -> u32
    ensures { result ≡ inc_decs site owner p m }
{
    u32::from(is_inc_dec(site, owner, p, m))
}

#[tactic(auto, unfolding(model::specs::Survey::balance))]
// Plus less minus, one signed whole number.
pub fn balance(plus: u32, minus: u32) -> i32
    requires { (plus < 2147483648) × (minus < 2147483648) }
    ensures { result ≡ balance_of plus minus }
{
    (plus as i32) - (minus as i32)
}
