// Specs of a transaction with ids in place of names.
ghost use Rattle.std.specs.Prelude.{◌≡◌, ◌∷◌, []};
ghost use Rattle.script.specs.Reading.{Gives};
ghost use Rattle.names.specs.Names.{each_of};
ghost use Rattle.names.specs.Transacting.{effect_of, spec_of, specs_of};

use crate::finding::{Compartments, Effects, Nodes, all_found, found};
use crate::names::Names;
use listed::Listed;
use requests::{NamedEffect, SpecRequest};
use script::LineError;
use std::alloc::Global;
use transaction::{Effect, Spec};
use values::Val;

/// An effect with ids. `Err`: `UnknownName` of its first name that isn't declared, or is of another sort; or out of memory.
fn effect_of(alloc: Global, names: &Names, named: NamedEffect) -> Result<Effect<Val>, LineError>
    ensures { Gives (λ x. x) result (effect_of names.now named) }
{
    match named {
        NamedEffect::Kind { effect, value } => {
            let id = found::<Effects>(names, &effect)?;
            Ok(Effect::Kind {
                id,
                value: Val::Plain(value),
            })
        }
        NamedEffect::Reconfigure { compartment, to } => {
            let compartment = found::<Compartments>(names, &compartment)?;
            let to = found::<Nodes>(names, &to)?;
            Ok(Effect::Reconfigure { compartment, to })
        }
        NamedEffect::Root(to) => {
            let nodes = all_found::<Nodes>(alloc, names, to.as_slice())?;
            Ok(Effect::Root(Listed::new(nodes)))
        }
        NamedEffect::Append(to) => Ok(Effect::Append(found::<Nodes>(names, &to)?)),
    }
}

/// Some effects with ids. `Err`: that of the first one that is refused; or out of memory.
fn effects_of(
    alloc: Global,
    names: &Names,
    effects: Listed<NamedEffect>,
) -> Result<Vec<Effect<Val>>, LineError>
    ensures { Gives (λ v. v.items) result (each_of (effect_of names.now) effects) }
{
    let mut known = Vec::with_capacity(alloc, effects.as_slice().len())?;
    for effect in effects.into_vec() {
        known.push(effect_of(alloc, names, effect)?)?;
    }
    Ok(known)
}

/// A spec with ids. `Err`: that of its first effect that is refused; or out of memory.
#[inline(always)]
fn spec_of(alloc: Global, names: &Names, request: SpecRequest) -> Result<Spec<Val>, LineError>
    ensures { Gives (λ x. x) result (spec_of names.now request) }
{
    let SpecRequest {
        changes,
        selection,
        effects,
        annotations,
        user_event,
        sequential,
        filter,
    } = request;
    let effects = effects_of(alloc, names, effects)?;
    Ok(Spec {
        changes,
        selection,
        effects: Listed::new(effects),
        annotations,
        user_event,
        sequential,
        filter,
    })
}

/// The specs of a transaction, in order, with ids in place of names; a plain value stays as it is, and so does the rest of a
/// spec. (Reference Manual, TransactionSpec.) `Err`: `UnknownName` of the first name, in the order of the specs and of their
/// effects, that isn't declared or is of another sort; or out of memory.
pub fn specs_of(
    alloc: Global,
    names: &Names,
    requests: Listed<SpecRequest>,
) -> Result<Vec<Spec<Val>>, LineError>
    ensures { Gives (λ v. v.items) result (specs_of names.now requests) }
{
    let mut specs = Vec::with_capacity(alloc, requests.as_slice().len())?;
    for request in requests.into_vec() {
        specs.push(spec_of(alloc, names, request)?)?;
    }
    Ok(specs)
}

/// The same for one spec: what `specs_of` gives for a list of this spec alone. `Err`: `UnknownName` of the first name, in the order
/// of its effects, that isn't declared or is of another sort; or out of memory.
pub fn specs_of_one(
    alloc: Global,
    names: &Names,
    request: SpecRequest,
) -> Result<Vec<Spec<Val>>, LineError>
    ensures { Gives (λ v. v.items) result (specs_of names.now (request ∷ [])) }
{
    let mut specs = Vec::with_capacity(alloc, 1)?;
    specs.push(spec_of(alloc, names, request)?)?;
    Ok(specs)
}
