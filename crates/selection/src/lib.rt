//! Selections: ranges over a document, one of which is the main one (Reference Manual, EditorSelection). A layer above may
//! rely on each selection having at least one range and being in normal form: its ranges stand in order, and no two overlap,
//! or touch where one is empty. It may also rely on `create`, `map` and `as_single` giving exactly the normal form that the
//! definitions name, on `create` covering the places that its ranges cover, and on mapped ranges lying in the new document.
#![tactic(auto)]

mod error;
mod marked;
mod range;
mod selection;

pub use crate::error::SelectionError;
pub use crate::range::Range;
pub use crate::selection::{Selection, first_outside};
