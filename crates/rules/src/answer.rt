// What an accepted call answers (Document 01, The calls).
ghost use Rattle.std.specs.Prelude.{◌≡◌};

use crate::refusal::Refusal;
use model::Posted;

// A value, the posted message, and how many slots were empty before a post, 0: not told (Document 02, One).
#[derive(Clone, Copy)]
pub struct Accepted {
    pub value: u16,
    pub empty: u16,
    pub posted: Posted,
}

ghost use Rattle.std.proofs.Common.{ap};
ghost use Rattle.std.specs.Prelude.{Ok};
ghost use Rattle.model.specs.declared.Posted.TheVariants.{Nothing};
ghost use Rattle.model.specs.Answers as meant;
ghost use Rattle.model.specs.Answers.{accepted, accepted_telling, refused};
ghost use Rattle.rules.specs.declared.answer.Answer.{Answer};
ghost use Rattle.rules.specs.Turned.{number_of, told, answer_of};

impl Accepted {
    // Most calls tell no count of empty slots.
    pub fn new(value: u16, posted: Posted) -> Self
        ensures { told (Ok result) ≡ accepted value posted }
    {
        Accepted::telling(0, value, posted)
    }

    // Make copy and delete hand it on (Document 02, One).
    pub fn telling(empty: u16, value: u16, posted: Posted) -> Self
        ensures { told (Ok result) ≡ accepted_telling empty value posted }
    {
        Accepted {
            value,
            empty,
            posted,
        }
    }
}

// Any answer as it is told, also one that no call gives: a number (0: accepted), a value, the count of empty slots and a message.
#[derive(Clone, Copy)]
pub struct Answer {
    pub number: u8,
    pub value: u16,
    pub empty: u16,
    pub posted: Posted,
}

// A refusal has value 0, no count and no message.
impl From<Refusal> for Answer {
    ghost from_gives = { λ refusal answer. answer ≡ record { number = number_of refusal; value = 0; empty = 0; posted = Nothing } };

    fn from(refusal: Refusal) -> Answer {
        Answer {
            number: refusal.into(),
            value: 0,
            empty: 0,
            posted: Posted::Nothing,
        }
    }
}

// What is told where a call is not accepted: a refusal, or any answer.
pub trait Told: Copy + Into<Answer> {
    ghost tells: { Self → meant.Answer };

    ghost as_told: { (x : Self) (answer : Answer) → Self.converts x answer → answer_of answer ≡ tells x };
}

impl Told for Refusal {
    ghost tells = { λ refusal. refused (number_of refusal) };

    ghost as_told = { λ refusal answer e. ap answer_of e };
}

impl Told for Answer {
    ghost tells = { answer_of };

    ghost as_told = { λ x answer e. ap answer_of e };
}
