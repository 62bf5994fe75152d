// A call as a line, a line as a call, and the reader of a text (Document 01, Lines).
#![tactic(auto)]

mod code;
pub mod digit;
pub mod line;
pub mod reader;
pub mod write;
