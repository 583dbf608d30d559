//! The rows of the window: the cells of a row, the cursor's column, and the runs of equal style of a row.
//!
//! `row` gives the cells that the window shows of a block's pieces, and counts that it did; `column_of` tells in which
//! column of its block a place stands, and `place_in_line` the same of a line of which its characters alone are shown,
//! where those up to the one after the place tell it; `runs_of` cuts a row where its style changes. A layer above may
//! rely on their exact results, on each row having exactly as many cells as the window has columns, and on its showing
//! whole groups of cells, so that no wide cluster is half shown. Each character of a block stands in exactly one of these
//! groups.
#![tactic(auto)]

mod columns;
mod cursor;
mod places;
mod rows;
mod runs;

pub use blocks::{Block, Blocks, has_points};
pub use columns::column_of;
pub use cursor::Cursor;
pub use pieces::{Edge, Piece, Pieces, piece_at, pieces, same_style, shown_pieces};
pub use places::place_in_line;
pub use rows::{StyledCell, row};
pub use runs::{Run, runs_of};
