//! Runs over a made workload: its lines are answered in order, and the reply to the last of them alone is written. What answers
//! them is given each line as a value, and gives the reply that its bytes would get.
//!
//! The layer above may rely on this: under each status of a run the sink holds the last reply, or a prefix of it where the write
//! failed, or nothing new where the store failed or out of memory, and the answerer and its store are what the lines that were
//! answered make of them; each status but `Ok` and `NoMemory` has its cause.
#![tactic(auto)]

mod answers_made;
mod run;

pub use answers_made::AnswersMade;
pub use run::run_workload;
