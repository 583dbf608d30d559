//! The registry of declarations: facets, fields, nodes, effect kinds and compartments, each by its id.
//!
//! A layer above may rely on this: a registry only grows, and an id keeps its definition. What is declared is lawful: each
//! rule number is one of its sort, each id is declared, each value and each rule's output fits. A declaration that isn't
//! lawful is refused with the first cause that the definition names, and changes nothing; nor does one that is out of
//! memory.
#![tactic(auto)]

mod field_ids;
mod id_sort;
mod known;
mod linked;
mod lookup;
mod parts;
mod predeclared;
mod provided;
mod refusals;
mod registry;
mod registry_error;
mod rule_sort;
mod shapes;
mod undo;

pub use field_ids::FieldIds;
pub use id_sort::IdSort;
pub use lookup::Lookup;
pub use predeclared::{
    ALLOW_MULTIPLE_SELECTIONS, CHANGE_FILTER, DECORATIONS, FILTER_DATA, HISTORY, HISTORY_CONFIG,
    HISTORY_NODE, NOTE, READ_ONLY, SAVE_SEPARATOR, TAB_SIZE, TRANSACTION_EXTENDER,
    TRANSACTION_FILTER,
};
pub use provided::Provided;
pub use registry::Registry;
pub use registry_error::RegistryError;
pub use rule_sort::RuleSort;
