// An answer for C: the message as slot bytes (Document 01, What the host lends, The calls).
ghost use Rattle.std.specs.Prelude.{◌≡◌};
ghost use Rattle.rules.specs.Turned.{told};
ghost use Rattle.pointer_desk.specs.Boundary.{flat_answer, ordered_answer};

use rules::answer::Accepted;
use rules::message::slot_bytes;
use rules::refusal::Refusal;

// Number, value, how many slots were empty before a post (0: not told), and the message as slot bytes.
#[repr(C)]
#[derive(Clone, Copy)]
pub struct DeskAnswer {
    pub number: u8,
    pub value: u16,
    pub empty: u16,
    pub message: [u8; 5],
}

// C has no Result (host/pointer_desk.h, DeskAnswer): a refusal is its number alone, and what is accepted has number 0 (Document 01, The calls).
impl From<Result<Accepted, Refusal>> for DeskAnswer {
    ghost from_gives = { λ answer flat. flat ≡ flat_answer (told answer) };

    fn from(answer: Result<Accepted, Refusal>) -> DeskAnswer {
        match answer {
            Ok(accepted) => DeskAnswer {
                number: 0,
                value: accepted.value,
                empty: accepted.empty,
                message: slot_bytes(accepted.posted),
            },
            Err(refusal) => DeskAnswer {
                number: u8::from(refusal),
                value: 0,
                empty: 0,
                message: [0; 5],
            },
        }
    }
}

// The in-order desk's answer: the same fields; its message has no number, which stands in its slot (Document 02, Three).
#[repr(C)]
#[derive(Clone, Copy)]
pub struct DeskOrderedAnswer {
    pub number: u8,
    pub value: u16,
    pub empty: u16,
    pub message: [u8; 5],
}

// The same fields; C has a type for each desk (host/pointer_desk.h, DeskOrderedAnswer).
impl From<Result<Accepted, Refusal>> for DeskOrderedAnswer {
    ghost from_gives = { λ answer flat. flat ≡ ordered_answer (told answer) };

    fn from(answer: Result<Accepted, Refusal>) -> DeskOrderedAnswer {
        let DeskAnswer {
            number,
            value,
            empty,
            message,
        } = DeskAnswer::from(answer);
        DeskOrderedAnswer {
            number,
            value,
            empty,
            message,
        }
    }
}
