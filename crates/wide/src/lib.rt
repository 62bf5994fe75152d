// Whether every slot of seven bytes is good, eight bytes at a time (Document 02, Three).
#![tactic(auto)]

pub mod word;
