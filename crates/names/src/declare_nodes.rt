// Declarations of nodes: inputs and fields with values, computed inputs, groups, precedences and slots.
ghost use Rattle.std.specs.Prelude.{◌≡◌, OnErr};
ghost use Rattle.script.specs.Reading.{Gives};
ghost use Rattle.values.specs.Growth.{IsGrowth};
ghost use Rattle.names.specs.Adding.{world};
ghost use Rattle.names.specs.Declaring.{compute_in, computed, from_in, group_in, init_in, input_in, prec_in, slot_in};

use crate::declare_new::declare_new;
use crate::finding::{Compartments, Facets, Fields, Nodes, Reads, all_found, found};
use crate::names::Names;
use crate::new_thing::NewThing;
use crate::sets::value;
use configuration::Dependency;
use ext_tree::ExtIds;
use listed::Listed;
use registry::Registry;
use requests::{
    ComputeDeclaration, FromDeclaration, GroupDeclaration, InitDeclaration, InputDeclaration,
    PrecDeclaration, SlotDeclaration,
};
use script::LineError;
use std::alloc::Global;
use values::Meanings;

/// An input that a rule computes, or several.
fn computed(many: bool, facet: u32, rule: u32, reads: Listed<Dependency>) -> NewThing
    ensures { result ≡ computed many facet rule reads }
{
    if many {
        NewThing::ComputeN { facet, rule, reads }
    } else {
        NewThing::Compute { facet, rule, reads }
    }
}

/// Declares an input of a facet with a value of its own.
pub(crate) fn declare_input<M: Meanings>(
    alloc: Global,
    registry: &mut Registry<M>,
    names: &mut Names,
    input: &InputDeclaration,
) -> Result<(), LineError>
    ensures answer { Gives (λ x. world names.new registry.new) result (input_in M.rules (world names.old registry.old) input.now) }
    ensures names_same { OnErr result (names.new ≡ names.old) }
    ensures same { OnErr result (registry.new ≡ registry.old) }
    ensures grows { IsGrowth registry.old registry.new }
{
    let facet = found::<Facets>(names, &input.facet)?;
    names.free(&input.name)?;
    let value = value(alloc, &input.value)?;
    let thing = NewThing::Input { facet, value };
    declare_new(alloc, registry, names, &input.name, &input.facet, thing)
}

/// Declares an input of a facet, or several of them, that a rule computes.
pub(crate) fn declare_compute<M: Meanings>(
    alloc: Global,
    registry: &mut Registry<M>,
    names: &mut Names,
    compute: &ComputeDeclaration,
) -> Result<(), LineError>
    ensures answer { Gives (λ x. world names.new registry.new) result (compute_in M.rules (world names.old registry.old) compute.now) }
    ensures names_same { OnErr result (names.new ≡ names.old) }
    ensures same { OnErr result (registry.new ≡ registry.old) }
    ensures grows { IsGrowth registry.old registry.new }
{
    let facet = found::<Facets>(names, &compute.facet)?;
    let reads = all_found::<Reads>(alloc, names, compute.deps.as_slice())?;
    names.free(&compute.name)?;
    let thing = computed(compute.many, facet, compute.rule, Listed::new(reads));
    declare_new(alloc, registry, names, &compute.name, &compute.facet, thing)
}

/// Declares an input of a facet that a rule computes from a field's value.
pub(crate) fn declare_from<M: Meanings>(
    alloc: Global,
    registry: &mut Registry<M>,
    names: &mut Names,
    from: &FromDeclaration,
) -> Result<(), LineError>
    ensures answer { Gives (λ x. world names.new registry.new) result (from_in M.rules (world names.old registry.old) from.now) }
    ensures names_same { OnErr result (names.new ≡ names.old) }
    ensures same { OnErr result (registry.new ≡ registry.old) }
    ensures grows { IsGrowth registry.old registry.new }
{
    let facet = found::<Facets>(names, &from.facet)?;
    let field = found::<Fields>(names, &from.field)?;
    names.free(&from.name)?;
    let thing = NewThing::From {
        facet,
        field,
        rule: from.rule,
    };
    declare_new(alloc, registry, names, &from.name, &from.facet, thing)
}

/// Declares a field with a first value of its own.
pub(crate) fn declare_init<M: Meanings>(
    alloc: Global,
    registry: &mut Registry<M>,
    names: &mut Names,
    init: &InitDeclaration,
) -> Result<(), LineError>
    ensures answer { Gives (λ x. world names.new registry.new) result (init_in M.rules (world names.old registry.old) init.now) }
    ensures names_same { OnErr result (names.new ≡ names.old) }
    ensures same { OnErr result (registry.new ≡ registry.old) }
    ensures grows { IsGrowth registry.old registry.new }
{
    let field = found::<Fields>(names, &init.field)?;
    names.free(&init.name)?;
    let value = value(alloc, &init.value)?;
    let thing = NewThing::Init { field, value };
    declare_new(alloc, registry, names, &init.name, &init.field, thing)
}

/// Declares a group of nodes.
pub(crate) fn declare_group<M: Meanings>(
    alloc: Global,
    registry: &mut Registry<M>,
    names: &mut Names,
    group: &GroupDeclaration,
) -> Result<(), LineError>
    ensures answer { Gives (λ x. world names.new registry.new) result (group_in M.rules (world names.old registry.old) group.now) }
    ensures names_same { OnErr result (names.new ≡ names.old) }
    ensures same { OnErr result (registry.new ≡ registry.old) }
    ensures grows { IsGrowth registry.old registry.new }
{
    let of = all_found::<Nodes>(alloc, names, group.of.as_slice())?;
    names.free(&group.name)?;
    let thing = NewThing::Group(ExtIds::of(of));
    declare_new(alloc, registry, names, &group.name, &group.name, thing)
}

/// Declares a node at a precedence of its own.
pub(crate) fn declare_prec<M: Meanings>(
    alloc: Global,
    registry: &mut Registry<M>,
    names: &mut Names,
    prec: &PrecDeclaration,
) -> Result<(), LineError>
    ensures answer { Gives (λ x. world names.new registry.new) result (prec_in M.rules (world names.old registry.old) prec.now) }
    ensures names_same { OnErr result (names.new ≡ names.old) }
    ensures same { OnErr result (registry.new ≡ registry.old) }
    ensures grows { IsGrowth registry.old registry.new }
{
    let of = found::<Nodes>(names, &prec.of)?;
    names.free(&prec.name)?;
    let thing = NewThing::Prec { at: prec.at, of };
    declare_new(alloc, registry, names, &prec.name, &prec.name, thing)
}

/// Declares the slot of a compartment.
pub(crate) fn declare_slot<M: Meanings>(
    alloc: Global,
    registry: &mut Registry<M>,
    names: &mut Names,
    slot: &SlotDeclaration,
) -> Result<(), LineError>
    ensures answer { Gives (λ x. world names.new registry.new) result (slot_in M.rules (world names.old registry.old) slot.now) }
    ensures names_same { OnErr result (names.new ≡ names.old) }
    ensures same { OnErr result (registry.new ≡ registry.old) }
    ensures grows { IsGrowth registry.old registry.new }
{
    let compartment = found::<Compartments>(names, &slot.compartment)?;
    let of = found::<Nodes>(names, &slot.of)?;
    names.free(&slot.name)?;
    let thing = NewThing::Slot { compartment, of };
    declare_new(alloc, registry, names, &slot.name, &slot.name, thing)
}
