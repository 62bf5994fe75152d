// Words of 64 bits as receive cells: a bit, all words, the words of an opening, and byte cells packed into words and back.
#![tactic(auto)]

pub mod bit;
mod fit;
pub mod owners;
pub mod pack;
pub mod unpack;
pub mod within;
