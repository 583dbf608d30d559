ghost use Rattle.serde_json.specs.View.{view};
ghost use Rattle.script.specs.Reading.{Gives};
ghost use Rattle.requests.specs.Requests.{declaration_named, node_named};

use crate::computed_declarations::{ComputeDeclaration, FromDeclaration};
use crate::effect_declarations::{EffectDeclaration, InverseDeclaration};
use crate::extension_declarations::{
    CompartmentDeclaration, GroupDeclaration, PrecDeclaration, SlotDeclaration,
};
use crate::facet_declaration::FacetDeclaration;
use crate::field_declaration::FieldDeclaration;
use crate::value_declarations::{InitDeclaration, InputDeclaration};
use script::{Item, LineError};
use serde_json::Value;
use std::alloc::Global;

/// What is to be declared.
#[derive(Drop)]
pub enum Declaration {
    Effect(EffectDeclaration),
    Inverse(InverseDeclaration),
    Facet(FacetDeclaration),
    Field(FieldDeclaration),
    Compartment(CompartmentDeclaration),
    Input(InputDeclaration),
    Compute(ComputeDeclaration),
    From(FromDeclaration),
    Init(InitDeclaration),
    Group(GroupDeclaration),
    Prec(PrecDeclaration),
    Slot(SlotDeclaration),
}

/// The declaration that a command of this name with this argument makes; none where the command declares nothing.
pub(crate) fn declaration_named(
    alloc: Global,
    name: &str,
    value: &Value,
) -> Result<Option<Declaration>, LineError>
    ensures { Gives (λ x. x) result (declaration_named name.now (view value.now)) }
{
    if name == "effect" {
        Ok(Some(Declaration::Effect(Item::read(alloc, name, value)?)))
    } else if name == "inverse" {
        Ok(Some(Declaration::Inverse(Item::read(alloc, name, value)?)))
    } else if name == "facet" {
        Ok(Some(Declaration::Facet(Item::read(alloc, name, value)?)))
    } else if name == "field" {
        Ok(Some(Declaration::Field(Item::read(alloc, name, value)?)))
    } else if name == "compartment" {
        Ok(Some(Declaration::Compartment(Item::read(alloc, name, value)?)))
    } else if name == "input" {
        Ok(Some(Declaration::Input(Item::read(alloc, name, value)?)))
    } else {
        node_named(alloc, name, value)
    }
}

/// The declaration of a node that is no input with a value of its own.
fn node_named(alloc: Global, name: &str, value: &Value) -> Result<Option<Declaration>, LineError>
    ensures { Gives (λ x. x) result (node_named name.now (view value.now)) }
{
    if name == "compute" {
        Ok(Some(Declaration::Compute(Item::read(alloc, name, value)?)))
    } else if name == "from" {
        Ok(Some(Declaration::From(Item::read(alloc, name, value)?)))
    } else if name == "init" {
        Ok(Some(Declaration::Init(Item::read(alloc, name, value)?)))
    } else if name == "group" {
        Ok(Some(Declaration::Group(Item::read(alloc, name, value)?)))
    } else if name == "prec" {
        Ok(Some(Declaration::Prec(Item::read(alloc, name, value)?)))
    } else if name == "slot" {
        Ok(Some(Declaration::Slot(Item::read(alloc, name, value)?)))
    } else {
        Ok(None)
    }
}
