//! Where changes of a document move the values of kept effects (Reference Manual, StateEffect.map): a position, a range, or
//! neither.
//!
//! A layer above may rely on `mapped_value` and `moved_effects` giving exactly what their definitions name: a value that is no
//! position or range of the old document stays or is dropped as the map says. A `ValueMapper` reads the changes once for many
//! values.
#![tactic(auto)]

mod moved;
mod position;
mod range;
mod value;
mod value_mapper;

pub use moved::moved_effects;
pub use value::mapped_value;
pub use value_mapper::ValueMapper;
