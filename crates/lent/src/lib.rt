// What the host lends, read as one desk: the tests, the questions, and what a call decides, written once for every desk. The receive table has bytes or words, the pool slots of five or of seven bytes.
#![tactic(auto)]

pub mod ask;
pub mod cells;
pub mod change;
pub mod copy;
pub mod delete;
pub mod desk;
pub mod held_slots;
pub mod holders;
pub mod numbered_slots;
pub mod opening;
pub mod pool;
pub mod receive;
pub mod share;
pub mod sheet;
#[cfg(test)]
mod tests;
