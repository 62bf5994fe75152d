// The calls of the in-order desk (Document 02, Three): an opening, make copy, receive and delete, over slots of seven bytes and the next numbers of each pair of sites. What a call decides is `lent`'s; here it is written.
#![tactic(auto)]

pub mod copy;
pub mod delete;
pub mod opening;
pub mod receive;
