//! The blocks of a text: lines between which replacements hide the breaks.
//!
//! `Blocks` finds, for a text and the decorations over it, how many blocks there are, the block of a place, and the
//! places and lines of a block; `has_points` tells whether some decoration is more than a mark, and where none is, each
//! line is a block. A layer above may rely on a line being in the block of the line before it exactly where a
//! replacement of some layer covers the break between them. What is kept is one entry for each block of several lines,
//! so that a long hidden text costs no more than a short one.
#![tactic(auto)]

mod block;
mod blocks;
mod collecting;
mod joins;
mod line_range;
mod points;
mod searching;

pub use block::Block;
pub use blocks::Blocks;
pub use points::has_points;
