// The lent tables of numbers: sizes, places, what an opening writes, owners.
#![tactic(auto)]

pub mod clear;
pub mod owners;
pub mod place;
pub mod rows;
pub mod shape;
