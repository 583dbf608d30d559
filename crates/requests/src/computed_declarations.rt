ghost use Rattle.requests.specs.Declarations.{compute_of, from_of};

use cm_plain::Str;
use listed::Listed;
use script::{
    Item, LineError, defaulted, members, number_member, only_fields, required, text_member,
};
use serde_json::Value;
use std::alloc::Global;

/// An input of a facet, or several of them, that a rule computes (Reference Manual, Facet.compute and Facet.computeN).
#[derive(Drop)]
pub struct ComputeDeclaration {
    pub name: Str,
    /// The facet by name.
    pub facet: Str,
    pub rule: u32,
    /// What the rule reads: the document, the selection, facets and fields.
    pub deps: Listed<Str>,
    /// Whether the rule gives a list of inputs.
    pub many: bool,
}

/// An input of a facet that a rule computes from a field's value (Reference Manual, Facet.from).
#[derive(Drop)]
pub struct FromDeclaration {
    pub name: Str,
    /// The facet by name.
    pub facet: Str,
    /// The field by name.
    pub field: Str,
    pub rule: u32,
}

impl Item for ComputeDeclaration {
    ghost item_of = { compute_of };

    #[tactic(auto, unfolding(crate::specs::Declarations::compute_of))]
    fn read(alloc: Global, command: &str, value: &Value) -> Result<ComputeDeclaration, LineError> {
        let members = members(alloc, command, value)?;
        let name = text_member(alloc, "name", value)?;
        let facet = text_member(alloc, "facet", value)?;
        let rule = number_member(alloc, "rule", value)?;
        let deps = required(alloc, "deps", value)?;
        let many = defaulted(alloc, "many", value, false)?;
        only_fields(alloc, &["name", "facet", "rule", "deps", "many"], members)?;
        Ok(ComputeDeclaration {
            name,
            facet,
            rule,
            deps,
            many,
        })
    }
}

impl Item for FromDeclaration {
    ghost item_of = { from_of };

    #[tactic(auto, unfolding(crate::specs::Declarations::from_of))]
    fn read(alloc: Global, command: &str, value: &Value) -> Result<FromDeclaration, LineError> {
        let members = members(alloc, command, value)?;
        let name = text_member(alloc, "name", value)?;
        let facet = text_member(alloc, "facet", value)?;
        let field = text_member(alloc, "field", value)?;
        let rule = defaulted(alloc, "rule", value, 4)?;
        only_fields(alloc, &["name", "facet", "field", "rule"], members)?;
        Ok(FromDeclaration {
            name,
            facet,
            field,
            rule,
        })
    }
}
