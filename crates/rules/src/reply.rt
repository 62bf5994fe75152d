// What is posted in answer to a COPY (Document 01, The calls).
ghost use Rattle.std.specs.Prelude.{◌≡◌};
ghost use Rattle.model.specs.declared.Posted.TheVariants.{Copy};
ghost use Rattle.model.specs.Messages.{reply};

use model::Posted;

// Of the receiver's cell and the pointer's owner.
pub(crate) fn reply_to_copy(from: u8, to: u8, pointer: u8, cell: u8, owner: u8) -> Posted
    ensures { result ≡ reply (Copy from to pointer) cell owner }
{
    if cell == 1 {
        return Posted::Dec {
            from: to,
            to: from,
            pointer,
        };
    }
    if from == owner {
        return Posted::Nothing;
    }
    Posted::IncDec {
        from: to,
        to: owner,
        third: from,
        pointer,
    }
}
