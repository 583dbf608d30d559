//! What the script command `map` answers: a set made of two lists of changes of a text, the text that it leads to, and
//! where a position goes.
//!
//! The layer above may rely on this: `mapped` gives what the definition of the same name gives, or its first refusal,
//! but for out of memory. It needs no session and changes none.
#![tactic(auto)]

mod answering;
mod changes;

pub use answering::mapped;
