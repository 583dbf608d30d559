ghost use Rattle.requests.specs.Declarations.{effect_of, inverse_of};

use cm_plain::Str;
use script::{Item, LineError, members, only_fields, optional, text_member};
use serde_json::Value;
use std::alloc::Global;

/// An effect kind that is to be declared (Reference Manual, StateEffect.define).
#[derive(Drop)]
pub struct EffectDeclaration {
    pub name: Str,
    /// The number of its map, if it has one.
    pub map: Option<u32>,
}

/// Two effect kinds that are to undo each other, by name.
#[derive(Drop)]
pub struct InverseDeclaration {
    pub effect: Str,
    pub back: Str,
}

impl Item for EffectDeclaration {
    ghost item_of = { effect_of };

    #[tactic(auto, unfolding(crate::specs::Declarations::effect_of))]
    fn read(alloc: Global, command: &str, value: &Value) -> Result<EffectDeclaration, LineError> {
        let members = members(alloc, command, value)?;
        let name = text_member(alloc, "name", value)?;
        let map = optional(alloc, "map", value)?;
        only_fields(alloc, &["name", "map"], members)?;
        Ok(EffectDeclaration { name, map })
    }
}

impl Item for InverseDeclaration {
    ghost item_of = { inverse_of };

    #[tactic(auto, unfolding(crate::specs::Declarations::inverse_of))]
    fn read(alloc: Global, command: &str, value: &Value) -> Result<InverseDeclaration, LineError> {
        let members = members(alloc, command, value)?;
        let effect = text_member(alloc, "effect", value)?;
        let back = text_member(alloc, "back", value)?;
        only_fields(alloc, &["effect", "back"], members)?;
        Ok(InverseDeclaration { effect, back })
    }
}
