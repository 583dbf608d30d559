//! The values of facets and fields in a state, kept from one state to the next.
//!
//! The value of a facet is its present inputs, combined from scratch in precedence order; the values of a state are settled in
//! dependency order by one rule for its fields, be it on entering or on an update; the calls of a transition are bounded by
//! what changed along the dependencies. A layer above may rely on this: `Slots` has the values that these definitions say,
//! whatever happened before; it calls only rules that are due; and it shares with the state before what stays.
#![tactic(auto)]

mod before;
mod definitions;
mod deps;
mod draft;
mod facet_inputs;
mod field;
mod first;
mod flags;
mod heard;
mod input_values;
mod kept;
mod next;
mod order;
mod outputs;
mod place;
mod scene_flags;
mod setup;
mod shelf;
mod slot;
mod slots;
mod step;
mod transition;
mod walk;

pub use definitions::shared_defs;
pub use slots::Slots;
