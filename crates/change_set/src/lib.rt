//! Change sets: what is kept of a document and what is replaced, with the texts that are put in.
//! A set is applied, put after another, moved over a description, turned round and filtered; a list of changes of one
//! document is made into one set. A layer above may rely on each set being in normal form, with both lengths less than
//! 2 ^ 32, on each answer being exactly what the definitions of sections, compose, merge, map and filter say, and on the
//! laws of changes. A set keeps its allocator, so its methods take none.
#![tactic(auto)]

mod ascent;
mod change;
mod change_set;
mod error;
mod filter;
mod filter_len;
mod filtered;
mod half;
mod inserted_text;
mod meeting;
mod only_replace;
mod place;
mod protected_range;
mod protection;
mod sections;
mod texts;
mod totals;

pub use crate::change::Change;
pub use crate::change_set::ChangeSet;
pub use crate::error::ChangesError;
pub use crate::filtered::Filtered;
pub use crate::inserted_text::InsertedText;
