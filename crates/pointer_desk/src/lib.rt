// The desk for C: every export is its call, and its answer in C's form (Document 01). C calls each desk's by a name of its own (host/pointer_desk.h); what they share is one function each.
#![tactic(auto)]

mod addresses;
mod answer;
mod counts;
mod line;
mod machine;
mod ordered_calls;
mod ordered_counts;
mod packing;
mod program;
mod word_calls;
mod word_counts;
