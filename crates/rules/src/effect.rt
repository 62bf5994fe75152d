// What a receive decides: scalars and the message alone, no table (Document 01, The calls).
ghost use Rattle.std.specs.Prelude.{◌≡◌, IfErr};
ghost use Rattle.model.specs.Messages.{decided};
ghost use Rattle.rules.specs.Turned.{number_by, effect_by};

use crate::refusal::{Reason, Refusal, when};
use crate::reply::reply_to_copy;
use model::Posted;

// What an accepted receive leaves: the receiver's counter and cell, and the posted message (Document 01, The calls).
#[derive(Clone, Copy)]
pub struct Becomes {
    pub counter: u16,
    pub cell: u8,
    pub posted: Posted,
}

// Of the message, the pointer's owner, the receiver's cell and counter, and whether it comes too early.
pub fn decide<E: Reason>(
    m: Posted,
    owner: u8,
    cell: u8,
    counter: u16,
    early: Result<(), E>,
) -> Result<Becomes, E>
    ensures effect { effect_by E.number counter cell result ≡ decided m owner cell counter (number_by E.number early) }
    ensures refused { IfErr result (λ refusal. ¬ E.number refusal ≡ 0) }
{
    if let Err(refusal) = early {
        let number: u8 = refusal.into();
        when(refusal, number != 0)?;
    }
    match m {
        Posted::Copy { from, to, pointer } => {
            when(E::from(Refusal::SameSite), from == to)?;
            let posted = reply_to_copy(from, to, pointer, cell, owner);
            Ok(Becomes {
                counter,
                cell: 1,
                posted,
            })
        }
        Posted::Dec { .. } => {
            when(E::from(Refusal::CounterZero), counter == 0)?;
            Ok(Becomes {
                counter: counter - 1,
                cell,
                posted: Posted::Nothing,
            })
        }
        Posted::IncDec {
            to,
            third,
            pointer,
            ..
        } => {
            when(E::from(Refusal::CounterFull), counter == 65535)?;
            Ok(Becomes {
                counter: counter + 1,
                cell,
                posted: Posted::Dec {
                    from: to,
                    to: third,
                    pointer,
                },
            })
        }
        Posted::Nothing => Ok(Becomes {
            counter,
            cell,
            posted: Posted::Nothing,
        }),
    }
}
