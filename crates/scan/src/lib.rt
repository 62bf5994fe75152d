// Whether every byte and every slot of what is lent is good, eight bytes at a time (Document 01, What the host lends).
#![tactic(auto)]

pub mod bytes;
pub mod form;
pub mod word;
