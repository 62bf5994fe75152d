// Where and how much one message is entered in the sheet: scalars and the message alone, no table (Document 01, Share and sheet).
ghost use Rattle.std.specs.Prelude.{◌≡◌, ◌-◌};
ghost use Rattle.model.specs.Messages.{kind_of};
ghost use Rattle.model.specs.Survey.{column as column_of};
ghost use Rattle.slots.specs.FirstSlots.{amount as amount_of};

use model::Posted;

// The row of a message: the first for a COPY, then DEC, INC_DEC.
pub fn row(m: Posted) -> usize
    ensures { result ≡ kind_of m - 1 }
{
    match m {
        Posted::Copy { .. } | Posted::Nothing => 0,
        Posted::Dec { .. } => 1,
        Posted::IncDec { .. } => 2,
    }
}

// The column of a message: the site whose counter it acts on (Document 02, Two).
pub fn column(m: Posted) -> u8
    ensures { result ≡ column_of m }
{
    match m {
        Posted::Copy { from, .. } => from,
        Posted::Dec { to, .. } => to,
        Posted::IncDec { third, .. } => third,
        Posted::Nothing => 0,
    }
}

// How much it counts there: 1 where it is a message of pointer p.
pub fn amount(p: u8, m: Posted) -> u32
    ensures { result ≡ amount_of p m }
{
    match m {
        Posted::Copy { pointer, .. }
        | Posted::Dec { pointer, .. }
        | Posted::IncDec { pointer, .. } => u32::from(pointer == p),
        Posted::Nothing => 0,
    }
}
