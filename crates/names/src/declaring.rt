// The declaring commands.
ghost use Rattle.std.specs.Prelude.{◌≡◌, OnErr};
ghost use Rattle.script.specs.Reading.{Gives};
ghost use Rattle.values.specs.Growth.{IsGrowth};
ghost use Rattle.names.specs.Adding.{world};
ghost use Rattle.names.specs.Declaring.{declared_in};
ghost use Rattle.names.specs.Known.{IsKept};

use crate::declare_field::declare_field;
use crate::declare_inverse::declare_inverse;
use crate::declare_kinds::{declare_compartment, declare_effect, declare_facet};
use crate::declare_nodes::{
    declare_compute, declare_from, declare_group, declare_init, declare_input, declare_prec,
    declare_slot,
};
use crate::names::Names;
use registry::Registry;
use requests::Declaration;
use script::LineError;
use std::alloc::Global;
use values::Meanings;

/// Declares something, by its command.
fn declare_one<M: Meanings>(
    alloc: Global,
    registry: &mut Registry<M>,
    names: &mut Names,
    declaration: &Declaration,
) -> Result<(), LineError>
    ensures answer { Gives (λ x. world names.new registry.new) result (declared_in M.rules (world names.old registry.old) declaration.now) }
    ensures names_same { OnErr result (names.new ≡ names.old) }
    ensures same { OnErr result (registry.new ≡ registry.old) }
    ensures grows { IsGrowth registry.old registry.new }
{
    match declaration {
        Declaration::Effect(it) => declare_effect(alloc, registry, names, it),
        Declaration::Inverse(it) => declare_inverse(alloc, registry, names, it),
        Declaration::Facet(it) => declare_facet(alloc, registry, names, it),
        Declaration::Field(it) => declare_field(alloc, registry, names, it),
        Declaration::Compartment(it) => declare_compartment(alloc, registry, names, it),
        Declaration::Input(it) => declare_input(alloc, registry, names, it),
        Declaration::Compute(it) => declare_compute(alloc, registry, names, it),
        Declaration::From(it) => declare_from(alloc, registry, names, it),
        Declaration::Init(it) => declare_init(alloc, registry, names, it),
        Declaration::Group(it) => declare_group(alloc, registry, names, it),
        Declaration::Prec(it) => declare_prec(alloc, registry, names, it),
        Declaration::Slot(it) => declare_slot(alloc, registry, names, it),
    }
}

/// Declares something, whole or not at all. It is refused by the first of these that holds: `UnknownName` of the first name in the
/// order of the fields that isn't declared or is of another sort than its field needs; `NameTaken` of the name to declare; what
/// the first faulty decoration of a written value is refused as; what the registry refuses, with names in place of ids. After a
/// refusal, or out of memory, the registry and the names are as before. What the names and the registry keep, they keep.
pub fn declare<M: Meanings>(
    alloc: Global,
    registry: &mut Registry<M>,
    names: &mut Names,
    declaration: &Declaration,
) -> Result<(), LineError>
    ensures answer { Gives (λ x. world names.new registry.new) result (declared_in M.rules (world names.old registry.old) declaration.now) }
    ensures names_same { OnErr result (names.new ≡ names.old) }
    ensures same { OnErr result (registry.new ≡ registry.old) }
    ensures grows { IsGrowth registry.old registry.new }
    ensures kept { IsKept names.old registry.old → IsKept names.new registry.new }
{
    declare_one(alloc, registry, names, declaration)
}
