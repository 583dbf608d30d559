ghost use Rattle.serde_json.specs.View.{view};
ghost use Rattle.script.specs.Reading.{Gives};
ghost use Rattle.requests.specs.Declarations.{facet_of, facet_rules_of};

use cm_plain::Str;
use configuration::FacetDef;
use listed::Listed;
use script::{
    Item, LineError, defaulted, list_or_empty, members, number_member, only_fields, text_member,
};
use serde_json::Value;
use std::alloc::Global;

/// A facet that is to be declared (Reference Manual, Facet.define).
#[derive(Drop)]
pub struct FacetDeclaration {
    pub name: Str,
    /// Its rules by number.
    pub def: FacetDef,
    /// The nodes that each of its inputs is followed by, by name.
    pub enables: Listed<Str>,
}

#[tactic(auto, unfolding(crate::specs::Declarations::facet_rules_of))]
fn read_rules(alloc: Global, value: &Value) -> Result<FacetDef, LineError>
    ensures { Gives (λ x. x) result (facet_rules_of (view value.now)) }
{
    let combine = number_member(alloc, "combine", value)?;
    let compare_input = defaulted(alloc, "compareInput", value, 1)?;
    let compare = defaulted(alloc, "compare", value, 1)?;
    let is_static = defaulted(alloc, "static", value, false)?;
    Ok(FacetDef {
        combine,
        compare_input,
        compare,
        is_static,
    })
}

/// The names of a facet's fields, in order.
const FACET_FIELDS: [&str; 6] = [
    "name",
    "combine",
    "compareInput",
    "compare",
    "static",
    "enables",
];

impl Item for FacetDeclaration {
    ghost item_of = { facet_of };

    #[tactic(auto, unfolding(crate::specs::Declarations::facet_of))]
    fn read(alloc: Global, command: &str, value: &Value) -> Result<FacetDeclaration, LineError> {
        let members = members(alloc, command, value)?;
        let name = text_member(alloc, "name", value)?;
        let def = read_rules(alloc, value)?;
        let enables = list_or_empty(alloc, "enables", value)?;
        only_fields(alloc, &FACET_FIELDS, members)?;
        Ok(FacetDeclaration { name, def, enables })
    }
}
