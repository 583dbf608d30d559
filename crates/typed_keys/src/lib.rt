//! Values of facets and fields as types of the program (Reference Manual, Facet and StateField, whose values have types).
//!
//! `Carried` is a type whose values are carried by values of a shape; its law says that a value comes back as it was. A key is
//! made for a facet or field of a registry, and is refused exactly where the shapes don't fit. A layer above may rely on `get`
//! giving what the facet or field has, read as the type, from every lookup that knows it as it was declared: `get` is total for a
//! facet, and `None` exactly of an absent field. `layers` lends what `get` copies, where the value of a facet is layers.
#![tactic(auto)]

mod carried;
mod carried_plain;
mod carried_sets;
mod facet_key;
mod field_key;
mod key_error;

pub use carried::Carried;
pub use facet_key::FacetKey;
pub use field_key::FieldKey;
pub use key_error::KeyError;
