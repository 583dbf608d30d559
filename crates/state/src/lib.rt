//! States of an editor: a document, its selection, a configuration, and the values of facets and fields.
//!
//! A layer above may rely on this: `State::create` makes the state that a base comes to, and `State::update` the next one, by
//! one step of the definition, whatever rules are handed in; the old state stays readable. A call is refused with the first
//! cause in the order that the definitions name, and then, as when out of memory, nothing has changed. Rules are called at
//! most as often as is due. Reading a state takes no memory.
#![tactic(auto)]

mod created;
mod cutting;
mod definitions;
mod drafted;
mod extensions;
mod moved;
mod reconfigured;
mod start;
mod state;
mod state_error;
mod stepped;
mod updated;

pub use state::State;
pub use state_error::StateError;
