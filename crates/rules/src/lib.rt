// What a call does over numbers and messages alone, no table: refusals, replies, answers. Every desk has these rules.
#![tactic(auto)]

pub mod answer;
pub mod effect;
pub mod message;
pub mod refusal;
pub mod reply;
