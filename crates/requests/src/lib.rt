//! What the lines of a session's script ask for, as plain data: extensions, facets, fields and effect kinds stand in it by
//! their names.
//!
//! The layer above may rely on this: each request is an `Item`, and its reading answers what its definition gives, a list of
//! its members in the table's order, or the first refusal. `Request` is a line of a session: a declaration, or one of its
//! other commands. A value is read as it is written; whether its decorations can be made is asked later.
#![tactic(auto)]

mod coloring;
mod computed_declarations;
mod declaration;
mod do_request;
mod effect_declarations;
mod extension_declarations;
mod facet_declaration;
mod field_declaration;
mod named_effect;
mod new_state;
mod open_request;
mod request;
mod spec_request;
mod value_declarations;
mod view_request;
mod words;
mod written;
mod written_deco;

pub use computed_declarations::{ComputeDeclaration, FromDeclaration};
pub use declaration::Declaration;
pub use do_request::{DoRequest, EditorCommand};
pub use effect_declarations::{EffectDeclaration, InverseDeclaration};
pub use extension_declarations::{
    CompartmentDeclaration, GroupDeclaration, PrecDeclaration, SlotDeclaration,
};
pub use facet_declaration::FacetDeclaration;
pub use field_declaration::{FieldDeclaration, FieldNames, FieldRules, ProvidedDeclaration};
pub use named_effect::{NamedEffect, NewContent};
pub use new_state::NewState;
pub use open_request::OpenRequest;
pub use request::{Request, read_request};
pub use spec_request::SpecRequest;
pub use term_keys::Move;
pub use value_declarations::{InitDeclaration, InputDeclaration};
pub use view_request::ViewRequest;
pub use written::Written;
pub use written_deco::WrittenDeco;
