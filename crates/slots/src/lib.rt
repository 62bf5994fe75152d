// The pool, of slots of W bytes: slots read, the lowest empty one, Held, and the messages in flight for one pointer, counted; and slots of five bytes written.
// W is 5 or 7; each function asks for 5 or more, since a const parameter has no law, and a trait's law is no fact that the check finds alone.
// Each pass over the pool is two functions, of a run of slots and of all; of one that took a closure each closure would state what its two functions state.
#![tactic(auto)]

pub mod count;
pub mod entries;
pub mod entry;
pub mod held;
pub mod lowest;
pub mod slot;
pub mod weight;
