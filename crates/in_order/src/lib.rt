// Document 02, Three. This crate has no functions: specs/ states the in-order desk, proofs/ what is true of it.
#![tactic(auto)]
