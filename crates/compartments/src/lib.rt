//! The set contents of compartments: a finite map from a compartment to the node that it was set to.
//!
//! A layer above may rely on this: a compartment has a content exactly where one was set and kept, `set` changes the
//! content of one compartment alone, and `keep_only` leaves the contents of the named compartments as they were and
//! drops the rest. Each compartment stands once, by number, so a node that was replaced is a content no more. Reading
//! takes no memory.
#![tactic(auto)]

mod contents;

pub use contents::Contents;
