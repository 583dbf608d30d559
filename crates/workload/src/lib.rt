//! A made workload: the lines of a script that declares three names, starts a session, makes up to 1,000,000 random
//! transactions and asks for a summary.
//!
//! The layer above may rely on this: `Workload::new` and `Workload::next` give exactly the lines of `made_lines` of
//! specs/MadeLines, one after the other, the same at each run. A transaction's line is given as what it does, and is not written.
#![tactic(auto)]

mod draws;
mod edit;
mod made_line;
mod progress;
mod workload;

pub use edit::Edit;
pub use made_line::MadeLine;
pub use workload::{MAX_TRANSACTIONS, Workload};
