//! Keys from the bytes that a terminal sends.
//!
//! A `KeyReader` is fed one byte at a time and answers a key where the byte ends one. A layer above may rely on the keys
//! of a list of bytes being a fold over its bytes, so that it doesn't matter how they were cut, and on each character
//! from U+0020 on but U+007F giving itself. No call takes memory.
#![tactic(auto)]

mod key;
mod reader;
mod taken;

pub use key::{Key, Move};
pub use reader::KeyReader;
