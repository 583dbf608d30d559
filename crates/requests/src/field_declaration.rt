ghost use Rattle.serde_json.specs.View.{view};
ghost use Rattle.script.specs.Reading.{Gives};
ghost use Rattle.requests.specs.Declarations.{field_of, field_names_of, field_rules_of, provided_of};

use cm_plain::Str;
use listed::Listed;
use script::{
    Item, LineError, defaulted, list_or_empty, members, number_member, only_fields, text_member,
};
use serde_json::Value;
use std::alloc::Global;

/// An input of a facet that a field provides: a rule computes it from the field's value (Reference Manual, Facet.from).
#[derive(Drop)]
pub struct ProvidedDeclaration {
    /// The facet by name.
    pub facet: Str,
    pub rule: u32,
}

/// The rules of a field by number.
#[derive(Clone, Copy)]
pub struct FieldRules {
    pub create: u32,
    pub update: u32,
    pub compare: u32,
}

/// What a field names.
#[derive(Drop)]
pub struct FieldNames {
    /// What its rules read: the document, the selection, facets and fields.
    pub reads: Listed<Str>,
    /// The effect kinds that it listens to.
    pub listens: Listed<Str>,
    /// What it provides.
    pub provides: Listed<ProvidedDeclaration>,
}

/// A field that is to be declared, with its node (Reference Manual, StateField.define).
#[derive(Drop)]
pub struct FieldDeclaration {
    pub name: Str,
    pub rules: FieldRules,
    pub names: FieldNames,
}

impl Item for ProvidedDeclaration {
    ghost item_of = { provided_of };

    #[tactic(auto, unfolding(crate::specs::Declarations::provided_of))]
    fn read(alloc: Global, name: &str, value: &Value) -> Result<ProvidedDeclaration, LineError> {
        let members = members(alloc, name, value)?;
        let facet = text_member(alloc, "facet", value)?;
        let rule = defaulted(alloc, "rule", value, 4)?;
        only_fields(alloc, &["facet", "rule"], members)?;
        Ok(ProvidedDeclaration { facet, rule })
    }
}

#[tactic(auto, unfolding(crate::specs::Declarations::field_rules_of))]
fn read_rules(alloc: Global, value: &Value) -> Result<FieldRules, LineError>
    ensures { Gives (λ x. x) result (field_rules_of (view value.now)) }
{
    let create = number_member(alloc, "create", value)?;
    let update = number_member(alloc, "update", value)?;
    let compare = defaulted(alloc, "compare", value, 1)?;
    Ok(FieldRules {
        create,
        update,
        compare,
    })
}

#[tactic(auto, unfolding(crate::specs::Declarations::field_names_of))]
fn read_names(alloc: Global, value: &Value) -> Result<FieldNames, LineError>
    ensures { Gives (λ x. x) result (field_names_of (view value.now)) }
{
    let reads = list_or_empty(alloc, "reads", value)?;
    let listens = list_or_empty(alloc, "listens", value)?;
    let provides = list_or_empty(alloc, "provides", value)?;
    Ok(FieldNames {
        reads,
        listens,
        provides,
    })
}

/// The names of a field's fields, in order.
const FIELD_FIELDS: [&str; 7] = [
    "name", "create", "update", "compare", "reads", "listens", "provides",
];

impl Item for FieldDeclaration {
    ghost item_of = { field_of };

    #[tactic(auto, unfolding(crate::specs::Declarations::field_of))]
    fn read(alloc: Global, command: &str, value: &Value) -> Result<FieldDeclaration, LineError> {
        let members = members(alloc, command, value)?;
        let name = text_member(alloc, "name", value)?;
        let rules = read_rules(alloc, value)?;
        let names = read_names(alloc, value)?;
        only_fields(alloc, &FIELD_FIELDS, members)?;
        Ok(FieldDeclaration { name, rules, names })
    }
}
