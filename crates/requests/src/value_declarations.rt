ghost use Rattle.requests.specs.Declarations.{init_of, input_of};

use crate::written::Written;
use cm_plain::Str;
use script::{Item, LineError, members, only_fields, required, text_member};
use serde_json::Value;
use std::alloc::Global;

/// An input of a facet with a value of its own that is to be declared (Reference Manual, Facet.of).
#[derive(Drop)]
pub struct InputDeclaration {
    pub name: Str,
    /// The facet by name.
    pub facet: Str,
    pub value: Written,
}

/// A field with a first value of its own that is to be declared (Reference Manual, StateField.init).
#[derive(Drop)]
pub struct InitDeclaration {
    pub name: Str,
    /// The field by name.
    pub field: Str,
    pub value: Written,
}

impl Item for InputDeclaration {
    ghost item_of = { input_of };

    #[tactic(auto, unfolding(crate::specs::Declarations::input_of))]
    fn read(alloc: Global, command: &str, object: &Value) -> Result<InputDeclaration, LineError> {
        let members = members(alloc, command, object)?;
        let name = text_member(alloc, "name", object)?;
        let facet = text_member(alloc, "facet", object)?;
        let value = required(alloc, "value", object)?;
        only_fields(alloc, &["name", "facet", "value"], members)?;
        Ok(InputDeclaration { name, facet, value })
    }
}

impl Item for InitDeclaration {
    ghost item_of = { init_of };

    #[tactic(auto, unfolding(crate::specs::Declarations::init_of))]
    fn read(alloc: Global, command: &str, object: &Value) -> Result<InitDeclaration, LineError> {
        let members = members(alloc, command, object)?;
        let name = text_member(alloc, "name", object)?;
        let field = text_member(alloc, "field", object)?;
        let value = required(alloc, "value", object)?;
        only_fields(alloc, &["name", "field", "value"], members)?;
        Ok(InitDeclaration { name, field, value })
    }
}
