// Refusals over scalars, in document 01's order (Why a call is turned down).
ghost use Rattle.std.proofs.Common.{ap};
ghost use Rattle.std.specs.Prelude.{◌≡◌, ℕ, ◌<◌, Ok, Err, OnSome, IfOk, IfSome, cond};
ghost use Rattle.model.specs.Refusals.{◌when◌};
ghost use Rattle.model.specs.Calls.{copy_refusal, delete_refusal};
ghost use Rattle.rules.specs.declared.refusal.Refusal.{Refusal};
ghost use Rattle.rules.specs.Turned.{Numbering, number_of, number_in, number_by, slot_in};

// Why a call is turned down, by name; its discriminant is its number (Document 01, Why a call is turned down).
#[derive(Clone, Copy, Debug, PartialEq, Eq)]
pub enum Refusal {
    BadShape = 1,
    BadTable = 2,
    BadName = 3,
    SameSite = 4,
    NotHeld = 5,
    CounterFull = 6,
    PoolFull = 7,
    EmptySlot = 8,
    Held = 9,
    CounterZero = 10,
    IsOwner = 11,
    StillCounted = 12,
    NotOwner = 13,
    BadLine = 14,
    UnknownCode = 15,
    PrivateCode = 16,
    TooLong = 17,
    BadBook = 18,
    Twins = 19,
    NotListed = 20,
    OutOfOrder = 21,
}

// The number that C and an answer line have.
impl From<Refusal> for u8 {
    ghost from_gives = { λ refusal number. number ≡ number_of refusal };

    fn from(refusal: Refusal) -> u8 {
        refusal as u8
    }
}

// What may stand for a refusal: its name, or a number of one byte, of which 0 is no refusal's.
pub trait Reason: Copy + From<Refusal> + Into<u8> {
    ghost number: { Numbering Self };

    ghost named: { (refusal : Refusal) (x : Self) → Self.from_gives refusal x → number x ≡ number_of refusal };

    ghost counted: { (x : Self) (n : ℕ) → Self.converts x n → n ≡ number x };
}

impl Reason for Refusal {
    ghost number = { number_of };

    ghost named = { λ refusal x e. ap number_of e };

    ghost counted = { λ x n e. e };
}

impl Reason for u8 {
    ghost number = { λ n. n };

    ghost named = { λ refusal n e. e };

    ghost counted = { λ x n e. e };
}

// Turned down for this reason when a test holds.
pub fn when<E: Reason>(refusal: E, test: bool) -> Result<(), E>
    ensures number { number_by E.number result ≡ E.number refusal when test }
    ensures given { result ≡ cond test (Err refusal) (Ok tt) }
{
    if test {
        return Err(refusal);
    }
    Ok(())
}

#[tactic(auto, unfolding(model::specs::Calls::copy_refusal))]
// Make copy: 4, 5, 6, 7; of the lowest empty slot, which an accepted call takes.
pub fn copy_refusal(
    from: u8,
    to: u8,
    owner: u8,
    cell: u8,
    counter: u16,
    lowest: Option<usize>,
) -> Result<usize, Refusal>
    ensures number { (slots : ℕ) → IfSome lowest (λ i. i < slots) → number_in result ≡ copy_refusal from to owner cell counter (slot_in slots lowest) slots }
    ensures slot { IfOk result (λ i. lowest ≡ Some i) }
{
    if from == to {
        return Err(Refusal::SameSite);
    }
    if (from != owner) & (cell == 0) {
        return Err(Refusal::NotHeld);
    }
    if counter == 65535 {
        return Err(Refusal::CounterFull);
    }
    lowest.ok_or(Refusal::PoolFull)
}

#[tactic(auto, unfolding(model::specs::Calls::delete_refusal))]
// Delete: 11, 5, 12, 7; of the lowest empty slot, which an accepted call takes.
pub fn delete_refusal(
    site: u8,
    owner: u8,
    cell: u8,
    counter: u16,
    lowest: Option<usize>,
) -> Result<usize, Refusal>
    ensures number { (slots : ℕ) → IfSome lowest (λ i. i < slots) → number_in result ≡ delete_refusal site owner cell counter (slot_in slots lowest) slots }
    ensures slot { IfOk result (λ i. lowest ≡ Some i) }
{
    if site == owner {
        return Err(Refusal::IsOwner);
    }
    if cell == 0 {
        return Err(Refusal::NotHeld);
    }
    if counter != 0 {
        return Err(Refusal::StillCounted);
    }
    lowest.ok_or(Refusal::PoolFull)
}
