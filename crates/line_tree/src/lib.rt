//! The text of a document: immutable, addressed by characters, and cut into lines.
//!
//! Contracts see a `Text` as its list of characters, in which LF is the break, with its height; everything above
//! reads the characters alone. A position counts Unicode scalar values and runs from 0 to the length; a line break
//! counts one; line numbers start at 1. A text is a tree that shares its parts with the texts it was made from, so
//! that a change copies little. A `Text` keeps its allocator, so its methods take none, and reading a length or a line
//! takes no memory.
#![tactic(auto)]

mod builder;
mod chunk;
mod cursor;
mod glue;
mod leaf;
mod leaf_builder;
mod line;
mod parts;
mod piece;
mod text;
mod tree;

pub use builder::TextBuilder;
pub use cursor::TextCursor;
pub use line::Line;
pub use text::{MAX_LEN, Text, cut_len};
