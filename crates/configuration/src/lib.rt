//! Configurations: what the extensions of a base come to over some definitions.
//!
//! A layer above may rely on this: `Config::resolve` answers the flat order of the base, each facet's inputs in it, each
//! field's first node in it, an order of facets and fields in which each stands after what it depends on, and the set
//! contents of the compartments that were met; or the first refusal of the extension tree; or, where those pass, the
//! circle that the dependencies have. Reading a configuration takes no memory.
#![tactic(auto)]

mod config;
mod config_error;
mod counts;
mod defs;
mod dependency;
mod facet_def;
mod field_def;
mod kinds;
mod node_def;
mod ordering;
mod pairs;
mod present;
mod vertex;

pub use config::Config;
pub use config_error::ConfigError;
pub use defs::Defs;
pub use dependency::Dependency;
pub use facet_def::FacetDef;
pub use field_def::FieldDef;
pub use node_def::NodeDef;
pub use vertex::Vertex;
