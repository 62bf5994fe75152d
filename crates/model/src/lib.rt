// The types of document 01. This crate has no functions: specs/ states document 01, proofs/ what is true of it.
#![tactic(auto)]

// A posted message: one of the three kinds, or none (Document 01, The calls).
// No Option of three kinds: a slot's kind is one of four numbers in document 01, and the definitions of specs/ match the four side by side.
#[derive(Clone, Copy)]
pub enum Posted {
    Copy {
        from: u8,
        to: u8,
        pointer: u8,
    },
    Dec {
        from: u8,
        to: u8,
        pointer: u8,
    },
    IncDec {
        from: u8,
        to: u8,
        third: u8,
        pointer: u8,
    },
    Nothing,
}

// A call, as a line says it (Document 01, Lines).
#[derive(Clone, Copy)]
pub enum Call {
    MakeCopy { from: u8, to: u8, pointer: u8 },
    Receive { slot: u16 },
    Delete { site: u8, pointer: u8 },
    Ask { site: u8, pointer: u8 },
}
