//! Runs over lines: each line of a source is read, answered, and its reply written whole to a sink, in order.
//!
//! The layer above may rely on this: under each status of a run the sink holds exactly the replies to the lines of the
//! bytes taken, or to some first lines of them where the store or a write failed or out of memory, and the answerer and
//! its store are what those lines make of them; each status but `Ok` and `NoMemory` has its cause.
#![tactic(auto)]

mod answers;
mod run;

pub use answers::Answers;
pub use run::run_lines;
