//! What a row of the window shows of a document: the pieces of a block of lines.
//!
//! A block is a list of lines between which replacements hide the breaks; the crate `blocks` finds them. `pieces` cuts
//! the characters from one place to another into clusters and the texts of widgets and replacements, each with its
//! style; `shown_pieces` gives those of them that a window shows, and `piece_at` the one at the cursor. A layer above may
//! rely on their exact results, and on `same` telling exactly whether pieces show the same. As the code is written, and
//! without a clause that says so, the last two read only the characters from the block's start to what they seek, and the
//! decorations that touch these, and copy the texts of the pieces alone that they give.
#![tactic(auto)]

mod block_pieces;
mod edge;
mod filling;
mod goal;
mod item;
mod items;
mod piece;
mod shading;
mod style_range;
mod styles;

pub use block_pieces::{piece_at, pieces, shown_pieces, slice_text};
pub use edge::Edge;
pub use piece::{Piece, Pieces};
pub use styles::same_style;
