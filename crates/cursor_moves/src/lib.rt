//! Where a cursor goes from a place of a text: over a cluster or a break, to another line, to the ends of its line or of the text.
//!
//! A layer above may rely on each answer being exactly the place that the definitions name, and on its lying in the text. A call
//! reads one line: clusters are those of the line at hand alone, so a move takes the time and the memory of its line.
#![tactic(auto)]

mod moves;
mod places;
mod stops;

pub use moves::moved;
pub use places::{after, before, down, up};
pub use term_keys::Move;
