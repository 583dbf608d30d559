//! The devices of the program: standard input and output, the files of the folder that it is run in, and the system's clock.
//!
//! They tell nothing of what they hold. A layer above may rely on the contracts of a source, a sink, a store and a clock: each
//! failed read, write, load or save raises a count of faults, but for one that is out of memory. `complaint` is the line that
//! standard error gets under the status of a run.
#![tactic(auto)]

mod complaints;
mod folder_store;
mod standard_input;
mod standard_output;
mod system_clock;

pub use complaints::complaint;
pub use folder_store::FolderStore;
pub use standard_input::StandardInput;
pub use standard_output::StandardOutput;
pub use system_clock::SystemClock;
