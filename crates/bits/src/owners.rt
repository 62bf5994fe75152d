// The words of an opening (Document 02, Five).
ghost use Rattle.std.specs.Prelude.{◌≡◌, true, map, ◌^◌, length};
ghost use Rattle.model.specs.Tables.{all_below};

use crate::bit::at_bit;

// The word of each pointer: 2 to the owner.
#[tactic(auto, using(model::proofs::ShapeLaws::byte_below_lem))]
pub fn owner_bits(owners: &[u8], words: &mut [u64])
    requires { (length words.old ≡ length owners.now) × (all_below 64 owners.now ≡ true) }
    ensures { words.new ≡ map (λ owner. 2 ^ owner) owners.now }
{
    for (p, word) in words.iter_mut().enumerate() {
        *word = at_bit(1, owners[p]);
    }
}
