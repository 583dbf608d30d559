//! The window on a document: which blocks of lines and which columns it shows.
//!
//! A `Viewport` keeps its size and its first block and column; `reveal` moves it as little as it takes to show a block
//! and some columns. A layer above may rely on a window having 1 to 500 rows and columns, and on its beginning at block 1
//! and column 0 until `reveal` moves it. No call takes memory.
#![tactic(auto)]

mod size_error;
mod viewport;

pub use size_error::SizeError;
pub use viewport::{MAX_SIZE, Viewport};
