//! Descriptions of changes: how much of a text is kept and how much is replaced by how much, with each new text known by
//! its length alone. A description maps positions, is put after another, is moved over another, and is turned round.
//! A layer above may rely on each description being in normal form, with both lengths less than 2 ^ 32, and on each call
//! giving exactly what the definitions of sections, cuts, compose, merge and map say. The definitions stand here once,
//! also for change sets, which have the texts.
#![tactic(auto)]

mod changed_range;
mod compose;
mod desc;
mod kind;
mod map;
mod map_mode;
mod meeting;
mod passed;
mod places;
mod position_index;
mod position_walker;
mod positions;
mod ranges;
mod section;
mod sections;
mod tail;
mod touch;
mod weave;

pub use crate::changed_range::{ChangedRange, ChangedRanges};
pub use crate::desc::Desc;
pub use crate::map_mode::MapMode;
pub use crate::meeting::{first_meets, ranges_from};
pub use crate::position_index::PositionIndex;
pub use crate::position_walker::PositionWalker;
pub use crate::section::Section;
pub use crate::touch::Touch;
