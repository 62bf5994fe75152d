// What an accepted call writes and answers (Document 01, The calls).
use rules::answer::Accepted;

// A site and a pointer, the place of their counter, that counter and their cell as they are to be, and the slot that takes the posted message.
#[derive(Clone, Copy)]
pub struct Change {
    pub site: u8,
    pub pointer: u8,
    pub at: usize,
    pub counter: u16,
    pub cell: u8,
    pub slot: usize,
    pub answer: Accepted,
}
