//! The updates of a made workload's transactions, made at once: no line is written and none is read.
//!
//! The layer above may rely on this: `edit_spec` gives exactly the one spec of the update that reading the transaction's line gives.
#![tactic(auto)]

mod inserted;
mod request;

pub use request::edit_spec;
