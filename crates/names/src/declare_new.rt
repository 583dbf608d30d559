// Declarations of effect kinds, facets, compartments and nodes under names that are free.
ghost use Rattle.std.specs.Prelude.{◌≡◌, IfErr, IfOk, None, OnErr, OnOk, length};
ghost use Rattle.registry.specs.Refusals.{IsRefused, Passes};
ghost use Rattle.script.specs.Reading.{Gives};
ghost use Rattle.values.specs.Growth.{IsGrowth};
ghost use Rattle.names.specs.Adding.{new_in, new_refusals, next_named, with_new, world};
ghost use Rattle.names.specs.Names.{meaning_of, with_name};

use crate::named::Named;
use crate::names::Names;
use crate::new_thing::NewThing;
use crate::refusing::{id_of, settled};
use cm_plain::Str;
use registry::{Registry, RegistryError};
use script::LineError;
use std::alloc::{AllocError, Global};
use values::Meanings;

/// What the name of a thing stands for, if it is declared next.
fn next_named<M: Meanings>(registry: &Registry<M>, thing: &NewThing) -> Result<Named, AllocError>
    ensures { IfOk result (λ named. named ≡ next_named registry.now thing.now) }
{
    match thing {
        NewThing::Effect(_) => {
            let id = id_of(registry.kinds().maps.as_slice().len())?;
            Ok(Named::Effect(id))
        }
        NewThing::Facet { def: _, enables: _ } => Ok(Named::Facet(registry.defs().facet_count())),
        NewThing::Compartment => Ok(Named::Compartment(registry.kinds().compartments)),
        _ => Ok(Named::Node(id_of(registry.arena().len())?)),
    }
}

/// Adds the name of a thing, and gives how many names there were.
fn add_name<M: Meanings>(
    alloc: Global,
    registry: &Registry<M>,
    names: &mut Names,
    name: &Str,
    thing: &NewThing,
) -> Result<usize, AllocError>
    requires { meaning_of name.now names.old ≡ None }
    ensures count { IfOk result (λ count. count ≡ length names.old) }
    ensures added { OnOk result (names.new ≡ with_name names.old name.now (next_named registry.now thing.now)) }
    ensures same { OnErr result (names.new ≡ names.old) }
{
    let named = next_named(registry, thing)?;
    let count = names.len();
    names.add(alloc, name, named)?;
    Ok(count)
}

/// Makes a thing in the registry.
fn made<M: Meanings>(registry: &mut Registry<M>, thing: NewThing) -> Result<u32, RegistryError>
    ensures made { OnOk result (registry.new ≡ with_new registry.old thing) }
    ensures passes { OnOk result (Passes (new_refusals M.rules registry.old thing)) }
    ensures refused { IfErr result (IsRefused (new_refusals M.rules registry.old thing)) }
    ensures same { OnErr result (registry.new ≡ registry.old) }
    ensures grows { IsGrowth registry.old registry.new }
{
    match thing {
        NewThing::Effect(map) => registry.effect(map),
        NewThing::Facet { def, enables } => registry.facet(def, enables),
        NewThing::Compartment => registry.compartment(),
        NewThing::Input { facet, value } => registry.input_of(facet, value),
        NewThing::Compute { facet, rule, reads } => registry.input_compute(facet, rule, reads),
        NewThing::ComputeN { facet, rule, reads } => registry.input_compute_n(facet, rule, reads),
        NewThing::From { facet, field, rule } => registry.input_from(facet, field, rule),
        NewThing::Init { field, value } => registry.init(field, value),
        NewThing::Group(of) => registry.group(of),
        NewThing::Prec { at, of } => registry.prec(at, of),
        NewThing::Slot { compartment, of } => registry.slot(compartment, of),
    }
}

/// Declares a thing under a name that is free. Where the registry refuses it, the refusal names the other name.
pub(crate) fn declare_new<M: Meanings>(
    alloc: Global,
    registry: &mut Registry<M>,
    names: &mut Names,
    name: &Str,
    other: &Str,
    thing: NewThing,
) -> Result<(), LineError>
    requires { meaning_of name.now names.old ≡ None }
    ensures answer { Gives (λ x. world names.new registry.new) result (new_in M.rules (world names.old registry.old) name.now other.now thing) }
    ensures names_same { OnErr result (names.new ≡ names.old) }
    ensures same { OnErr result (registry.new ≡ registry.old) }
    ensures grows { IsGrowth registry.old registry.new }
{
    let count = add_name(alloc, registry, names, name, &thing)?;
    let outcome = made(registry, thing);
    settled(alloc, names, count, outcome, other)
}
