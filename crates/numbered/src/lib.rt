// The pool of the in-order desk: the numbers of its slots of seven bytes, read and written, and the next numbers of the pairs of sites. What it shares with the base's pool is of `slots`.
#![tactic(auto)]

pub mod pairs;
pub mod post;
pub mod slot;
