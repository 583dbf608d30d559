ghost use Rattle.requests.specs.Declarations.{compartment_of, group_of, prec_of, slot_of};

use crate::words::precedence_member;
use cm_plain::Str;
use ext_tree::Precedence;
use listed::Listed;
use script::{Item, LineError, members, only_fields, required, text_member};
use serde_json::Value;
use std::alloc::Global;

/// A compartment that is to be declared (Reference Manual, Compartment).
#[derive(Drop)]
pub struct CompartmentDeclaration {
    pub name: Str,
}

/// A group of nodes that is to be declared (Reference Manual, Extension).
#[derive(Drop)]
pub struct GroupDeclaration {
    pub name: Str,
    /// The nodes in order, by name.
    pub of: Listed<Str>,
}

/// A node at a precedence of its own that is to be declared (Reference Manual, Prec).
#[derive(Drop)]
pub struct PrecDeclaration {
    pub name: Str,
    pub at: Precedence,
    /// The node by name.
    pub of: Str,
}

/// The slot of a compartment that is to be declared (Reference Manual, Compartment.of).
#[derive(Drop)]
pub struct SlotDeclaration {
    pub name: Str,
    /// The compartment by name.
    pub compartment: Str,
    /// Its content where none is set: a node by name.
    pub of: Str,
}

impl Item for CompartmentDeclaration {
    ghost item_of = { compartment_of };

    #[tactic(auto, unfolding(crate::specs::Declarations::compartment_of))]
    fn read(
        alloc: Global,
        command: &str,
        value: &Value,
    ) -> Result<CompartmentDeclaration, LineError> {
        let members = members(alloc, command, value)?;
        let name = text_member(alloc, "name", value)?;
        only_fields(alloc, &["name"], members)?;
        Ok(CompartmentDeclaration { name })
    }
}

impl Item for GroupDeclaration {
    ghost item_of = { group_of };

    #[tactic(auto, unfolding(crate::specs::Declarations::group_of))]
    fn read(alloc: Global, command: &str, value: &Value) -> Result<GroupDeclaration, LineError> {
        let members = members(alloc, command, value)?;
        let name = text_member(alloc, "name", value)?;
        let of = required(alloc, "of", value)?;
        only_fields(alloc, &["name", "of"], members)?;
        Ok(GroupDeclaration { name, of })
    }
}

impl Item for PrecDeclaration {
    ghost item_of = { prec_of };

    #[tactic(auto, unfolding(crate::specs::Declarations::prec_of))]
    fn read(alloc: Global, command: &str, value: &Value) -> Result<PrecDeclaration, LineError> {
        let members = members(alloc, command, value)?;
        let name = text_member(alloc, "name", value)?;
        let at = precedence_member(alloc, "at", value)?;
        let of = text_member(alloc, "of", value)?;
        only_fields(alloc, &["name", "at", "of"], members)?;
        Ok(PrecDeclaration { name, at, of })
    }
}

impl Item for SlotDeclaration {
    ghost item_of = { slot_of };

    #[tactic(auto, unfolding(crate::specs::Declarations::slot_of))]
    fn read(alloc: Global, command: &str, value: &Value) -> Result<SlotDeclaration, LineError> {
        let members = members(alloc, command, value)?;
        let name = text_member(alloc, "name", value)?;
        let compartment = text_member(alloc, "compartment", value)?;
        let of = text_member(alloc, "of", value)?;
        only_fields(alloc, &["name", "compartment", "of"], members)?;
        Ok(SlotDeclaration {
            name,
            compartment,
            of,
        })
    }
}
