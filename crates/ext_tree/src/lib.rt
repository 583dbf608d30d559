//! The extension tree: an arena of nodes, and the flat order of the leaves that some roots lead to.
//!
//! A layer above may rely on this: an arena grows at its end, a node keeps its id and names older nodes alone, and only
//! the latest nodes can be taken away again. `flatten` answers the flat order of the plain unfolding, and the first slot node of each compartment that was met; or it is
//! refused with the first of the causes that the definition names. It walks a node at most once for each precedence, and
//! what a facet enables or a field provides no more often, which is not proved.
#![tactic(auto)]

mod arena;
mod ext_error;
mod ext_ids;
mod flat;
mod found;
mod links;
mod memo;
mod met_slots;
mod node;
mod open_slots;
mod precedence;
mod shared_list;
mod taken;
mod task;
mod tree;
mod unknown;
mod visit;
mod walk;
mod walked_lists;

pub use arena::Arena;
pub use ext_error::ExtError;
pub use ext_ids::ExtIds;
pub use flat::{Flat, flatten};
pub use links::{Links, are_links_older};
pub use node::{ExtId, Node};
pub use precedence::Precedence;
