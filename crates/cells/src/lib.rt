//! The cells that a text takes in a row of the window: a group of cells for each grapheme cluster.
//!
//! `cells_of` lays out a text from a column on, and `columns_of` tells how many cells that are without memory.
//! `is_printable` tells whether a text is printable ASCII, of which each character is a cluster of one column,
//! `are_printable` the same of a list of characters, and `char_count` counts characters. A layer above may rely on their
//! exact results (`cells_of` of specs/Layout), and on `Cell` having private fields: no other function makes a cell that
//! isn't blank.
#![tactic(auto)]

mod cell;
mod cluster;
mod columns;
mod layout;

pub use cell::Cell;
pub use cluster::{are_printable, char_count, is_printable};
pub use columns::columns_of;
pub use layout::{cells_of, text_of};
