//! Runs of collaboration over lines: `Play::line` answers one line, which begins a world of clients and an authority, lets an event
//! happen in it or asks for its text, and `collab` answers each line of a source to a sink.
//!
//! The layer above may rely on this: under each status of a run the sink holds exactly the replies of the plain
//! play to the lines of the bytes taken, or a prefix of them where a write failed or out of memory; a refused line
//! changes nothing.
#![tactic(auto)]

mod begin;
mod command;
mod deliver;
mod events;
mod naming;
mod outcome;
mod play;
mod program;
mod reading;
mod refusing;

pub use command::{BeginRequest, CollabCommand, MAX_CLIENTS};
pub use outcome::Outcome;
pub use play::Play;
pub use program::collab;
