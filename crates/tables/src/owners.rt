// The numbers 1 and 2 of S and the owners (Document 01, Why a call is turned down).
ghost use Rattle.std.specs.Prelude.{◌≡◌};
ghost use Rattle.model.specs.Tables.{owners_refusal};
ghost use Rattle.rules.specs.Turned.{number_in};

use crate::shape::sizes_good;
use rules::refusal::{Refusal, when};
use scan::bytes::all_below;

#[tactic(auto, unfolding(model::specs::Tables::owners_refusal))]
// 1, 2 of S and the owners alone, as the book takes them.
pub fn owners_refusal(s: u8, owners: &[u8]) -> Result<(), Refusal>
    ensures { number_in result ≡ owners_refusal s owners.now }
{
    when(Refusal::BadShape, !sizes_good(s, owners.len()))?;
    when(Refusal::BadTable, !all_below(owners, s))
}
