ghost use Rattle.serde_json.specs.View.{view};
ghost use Rattle.script.specs.Reading.{Gives};
ghost use Rattle.requests.specs.Effects.{content_of, append_of, kind_effect_of, named_effect_of, reconfigure_of, root_of};

use cm_plain::{Plain, Str};
use listed::Listed;
use script::{Item, LineError, members, only_fields, required, text_member};
use serde_json::Value;
use std::alloc::Global;

/// What a transaction asks for beside its changes, by names (Reference Manual, StateEffect).
#[derive(Drop)]
pub enum NamedEffect {
    /// A value for those that listen to a declared effect kind.
    Kind { effect: Str, value: Plain },
    /// The content of a compartment is this node from now on (Reference Manual, Compartment.reconfigure).
    Reconfigure { compartment: Str, to: Str },
    /// The configuration is made of these nodes from now on (Reference Manual, StateEffect.reconfigure).
    Root(Listed<Str>),
    /// This node is added to the configuration (Reference Manual, StateEffect.appendConfig).
    Append(Str),
}

/// The new content of a compartment, both by name.
#[derive(Drop)]
pub struct NewContent {
    pub compartment: Str,
    pub to: Str,
}

impl Item for NewContent {
    ghost item_of = { content_of };

    #[tactic(auto, unfolding(crate::specs::Effects::content_of))]
    fn read(alloc: Global, name: &str, value: &Value) -> Result<NewContent, LineError> {
        let members = members(alloc, name, value)?;
        let compartment = text_member(alloc, "compartment", value)?;
        let to = text_member(alloc, "to", value)?;
        only_fields(alloc, &["compartment", "to"], members)?;
        Ok(NewContent { compartment, to })
    }
}

#[tactic(auto, unfolding(crate::specs::Effects::kind_effect_of))]
fn read_kind(alloc: Global, name: &str, object: &Value) -> Result<NamedEffect, LineError>
    ensures { Gives (λ x. x) result (kind_effect_of name.now (view object.now)) }
{
    let members = members(alloc, name, object)?;
    let effect = text_member(alloc, "effect", object)?;
    let value = required(alloc, "value", object)?;
    only_fields(alloc, &["effect", "value"], members)?;
    Ok(NamedEffect::Kind { effect, value })
}

#[tactic(auto, unfolding(crate::specs::Effects::reconfigure_of))]
fn read_reconfigure(alloc: Global, name: &str, value: &Value) -> Result<NamedEffect, LineError>
    ensures { Gives (λ x. x) result (reconfigure_of name.now (view value.now)) }
{
    let members = members(alloc, name, value)?;
    let content: NewContent = required(alloc, "reconfigure", value)?;
    only_fields(alloc, &["reconfigure"], members)?;
    Ok(NamedEffect::Reconfigure {
        compartment: content.compartment,
        to: content.to,
    })
}

#[tactic(auto, unfolding(crate::specs::Effects::root_of))]
fn read_root(alloc: Global, name: &str, value: &Value) -> Result<NamedEffect, LineError>
    ensures { Gives (λ x. x) result (root_of name.now (view value.now)) }
{
    let members = members(alloc, name, value)?;
    let nodes = required(alloc, "root", value)?;
    only_fields(alloc, &["root"], members)?;
    Ok(NamedEffect::Root(nodes))
}

#[tactic(auto, unfolding(crate::specs::Effects::append_of))]
fn read_append(alloc: Global, name: &str, value: &Value) -> Result<NamedEffect, LineError>
    ensures { Gives (λ x. x) result (append_of name.now (view value.now)) }
{
    let members = members(alloc, name, value)?;
    let node = text_member(alloc, "append", value)?;
    only_fields(alloc, &["append"], members)?;
    Ok(NamedEffect::Append(node))
}

impl Item for NamedEffect {
    ghost item_of = { named_effect_of };

    #[tactic(auto, unfolding(crate::specs::Effects::named_effect_of))]
    fn read(alloc: Global, name: &str, value: &Value) -> Result<NamedEffect, LineError> {
        if value.get("effect").is_some() {
            read_kind(alloc, name, value)
        } else if value.get("reconfigure").is_some() {
            read_reconfigure(alloc, name, value)
        } else if value.get("root").is_some() {
            read_root(alloc, name, value)
        } else if value.get("append").is_some() {
            read_append(alloc, name, value)
        } else {
            read_kind(alloc, name, value)
        }
    }
}
