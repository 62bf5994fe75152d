// The calls over slots of five bytes, with Held (Document 01, The calls): an opening, make copy, receive and delete, of receive cells in bytes or in words. What a call decides is `lent`'s; here it is written.
#![tactic(auto)]

pub mod copy;
pub mod delete;
pub mod opening;
pub mod receive;
