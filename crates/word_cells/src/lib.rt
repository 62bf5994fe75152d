// Document 02, Five. This crate has no functions: specs/ states the word desk, proofs/ what is true of it.
#![tactic(auto)]
