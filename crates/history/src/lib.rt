//! The history of a document: which changes can be undone and done again, each with its effects and the selection to restore,
//! and which selections can be gone back to (Reference Manual, history).
//!
//! A layer above may rely on `step` giving exactly the history that the definitions name, on the newest changes after a
//! recorded or moved step leading back to the text before it, and on all items of a history leading on from one document, with
//! their selections inside. Reading and comparing take no memory.
#![tactic(auto)]

mod case;
mod cases;
mod chain;
mod cut;
mod group;
mod history;
mod isolation;
mod item;
mod items;
mod lists;
mod moving;
mod reading;
mod restore;
mod shared_item;
mod step_input;

pub use crate::chain::MOST_SELECTS;
pub use crate::group::Group;
pub use crate::history::History;
pub use crate::isolation::Isolation;
pub use crate::item::{ChangeItem, Item, SelectItem};
pub use crate::items::Items;
pub use crate::lists::Lists;
pub use crate::restore::Restore;
pub use crate::step_input::StepInput;
