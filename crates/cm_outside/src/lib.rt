//! The outside of the editor core: traits for where bytes come from and go to, for files, each with a count of faults
//! that never falls, and for the clock; forms of them in memory; and a reader of a source, by lines or by bytes.
//!
//! The layer above may rely on this: a line reader answers the lines of exactly the bytes that the source gave, takes
//! no byte past its limit but one, and answers a failure only where the source's count of faults rose; a whole
//! piece was written, or a prefix of it where the sink's count of faults rose.
#![tactic(auto)]

mod clock;
mod failed;
mod leaves;
mod line_reader;
mod mem_clock;
mod mem_sink;
mod mem_source;
mod mem_store;
mod next_byte;
mod piece;
mod reading;
mod sink;
mod source;
mod status;
mod store;
mod store_fault;

pub use clock::Clock;
pub use failed::Failed;
pub use leaves::Leaves;
pub use line_reader::LineReader;
pub use mem_clock::MemClock;
pub use mem_sink::MemSink;
pub use mem_source::MemSource;
pub use mem_store::MemStore;
pub use next_byte::NextByte;
pub use piece::Piece;
pub use reading::{MAX_LINE, Reading};
pub use sink::{Sink, write_whole};
pub use source::Source;
pub use status::Status;
pub use store::Store;
pub use store_fault::StoreFault;
