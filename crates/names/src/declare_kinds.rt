// Declarations of effect kinds, facets and compartments.
ghost use Rattle.std.specs.Prelude.{◌≡◌, OnErr};
ghost use Rattle.script.specs.Reading.{Gives};
ghost use Rattle.values.specs.Growth.{IsGrowth};
ghost use Rattle.names.specs.Adding.{world};
ghost use Rattle.names.specs.Declaring.{compartment_in, effect_in, facet_in};

use crate::declare_new::declare_new;
use crate::finding::{Nodes, all_found};
use crate::names::Names;
use crate::new_thing::NewThing;
use ext_tree::ExtIds;
use registry::Registry;
use requests::{CompartmentDeclaration, EffectDeclaration, FacetDeclaration};
use script::LineError;
use std::alloc::Global;
use values::Meanings;

/// Declares an effect kind.
pub(crate) fn declare_effect<M: Meanings>(
    alloc: Global,
    registry: &mut Registry<M>,
    names: &mut Names,
    effect: &EffectDeclaration,
) -> Result<(), LineError>
    ensures answer { Gives (λ x. world names.new registry.new) result (effect_in M.rules (world names.old registry.old) effect.now) }
    ensures names_same { OnErr result (names.new ≡ names.old) }
    ensures same { OnErr result (registry.new ≡ registry.old) }
    ensures grows { IsGrowth registry.old registry.new }
{
    names.free(&effect.name)?;
    let thing = NewThing::Effect(effect.map);
    declare_new(alloc, registry, names, &effect.name, &effect.name, thing)
}

/// Declares a facet.
pub(crate) fn declare_facet<M: Meanings>(
    alloc: Global,
    registry: &mut Registry<M>,
    names: &mut Names,
    facet: &FacetDeclaration,
) -> Result<(), LineError>
    ensures answer { Gives (λ x. world names.new registry.new) result (facet_in M.rules (world names.old registry.old) facet.now) }
    ensures names_same { OnErr result (names.new ≡ names.old) }
    ensures same { OnErr result (registry.new ≡ registry.old) }
    ensures grows { IsGrowth registry.old registry.new }
{
    let enables = all_found::<Nodes>(alloc, names, facet.enables.as_slice())?;
    names.free(&facet.name)?;
    let thing = NewThing::Facet {
        def: facet.def,
        enables: ExtIds::of(enables),
    };
    declare_new(alloc, registry, names, &facet.name, &facet.name, thing)
}

/// Declares a compartment.
pub(crate) fn declare_compartment<M: Meanings>(
    alloc: Global,
    registry: &mut Registry<M>,
    names: &mut Names,
    compartment: &CompartmentDeclaration,
) -> Result<(), LineError>
    ensures answer { Gives (λ x. world names.new registry.new) result (compartment_in M.rules (world names.old registry.old) compartment.now) }
    ensures names_same { OnErr result (names.new ≡ names.old) }
    ensures same { OnErr result (registry.new ≡ registry.old) }
    ensures grows { IsGrowth registry.old registry.new }
{
    names.free(&compartment.name)?;
    let thing = NewThing::Compartment;
    declare_new(
        alloc,
        registry,
        names,
        &compartment.name,
        &compartment.name,
        thing,
    )
}
