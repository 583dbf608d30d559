//! Runs over keys: a first frame is written, then the bytes of a source are read as keys, and after each key a frame is
//! written, up to Quit or the end of input.
//!
//! The layer above may rely on this: under each status of a run the sink holds exactly the frames of the keys of the bytes
//! taken, or of some first keys of them where the store or a write failed or out of memory, and the answerer and its store
//! are what those keys make of them; each status but `Ok` and `NoMemory` has its cause; the clock is read once a key.
#![tactic(auto)]

mod answers_keys;
mod run;

pub use answers_keys::AnswersKeys;
pub use run::run_keys;
