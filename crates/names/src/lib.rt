//! The names of what a script declares, and the commands that declare.
//!
//! The layer above may rely on this: names stand in one name space, in order of declaration, and `declare` makes of a registry
//! and its names what its definition says, or gives the first refusal: an unknown name, a name that is taken, what a written
//! value is refused as, and then what the registry refuses, with names in place of ids. After a refusal, or out of memory,
//! both are as before. `specs_of` puts ids in place of the names in a transaction's specs, and `specs_of_one` does so for a transaction
//! of one spec. `config_refusal` puts names in place of the ids of what makes no configuration.
#![tactic(auto)]

mod declare_field;
mod declare_inverse;
mod declare_kinds;
mod declare_new;
mod declare_nodes;
mod declaring;
mod finding;
mod named;
mod names;
mod new_thing;
mod predeclared;
mod refusing;
mod sets;
mod transacting;
mod unconfigured;
mod valued;

pub use declaring::declare;
pub use finding::{
    Compartments, Effects, Facets, Fields, Nodes, Reads, Sought, Values, all_found, found,
};
pub use named::Named;
pub use names::Names;
pub use transacting::{specs_of, specs_of_one};
pub use unconfigured::config_refusal;
pub use valued::Valued;
