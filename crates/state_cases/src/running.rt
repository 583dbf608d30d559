// States through updates.
ghost use Rattle.std.specs.Prelude.{◌≡◌, ◌<◌, IfOk};
ghost use Rattle.values.specs.Shipped.{shipped};
ghost use Rattle.values.specs.Whole.{IsWhole};
ghost use Rattle.facet_slots.specs.Agreement.{IsGrown};
ghost use Rattle.facet_slots.specs.Lent.{definitions};

use crate::specs::{Sent, ranges, specs, text};
use registry::Registry;
use selection::{Selection, SelectionError};
use shipped_rules::Shipped;
use state::{State, StateError};
use std::alloc::{AllocError, Global};
use std::marker::Brand;
use std::sync::ledger::{Blank, Ledger};
use steps::Steps;
use values::Kit;

/// The nodes, the document and the selection of a creation, and the updates after it, each a list of specs.
#[derive(Clone, Copy)]
pub(crate) struct Case<'a> {
    pub(crate) base: &'a [u32],
    pub(crate) document: &'a str,
    pub(crate) ranges: &'a [(u32, u32)],
    pub(crate) updates: &'a [&'a [Sent<'a>]],
}

fn selection(alloc: Global, all: &[(u32, u32)]) -> Result<Selection, AllocError> {
    match Selection::create(alloc, ranges(alloc, all)?.as_slice(), 0) {
        Ok(selection) => Ok(selection),
        Err(SelectionError::NoMemory) => Err(AllocError),
        Err(_) => Selection::single(alloc, 0, 0),
    }
}

fn created<L: Ledger>(
    alloc: Global,
    kit: &Kit<Shipped>,
    registry: &Registry<Shipped>,
    case: Case<'_>,
    calls: &mut Steps<L>,
) -> Result<State<Shipped>, StateError>
    requires whole { IsWhole shipped kit.now }
    ensures { IfOk result (λ state. IsGrown state.setup.defs (definitions registry.now)) }
{
    let document = text(alloc, case.document)?;
    let selection = selection(alloc, case.ranges)?;
    State::create(alloc, kit, registry, document, selection, case.base, calls)
}

fn updated<L: Ledger>(
    alloc: Global,
    kit: &Kit<Shipped>,
    registry: &Registry<Shipped>,
    state: &State<Shipped>,
    sent: &[Sent<'_>],
    calls: &mut Steps<L>,
) -> Result<State<Shipped>, StateError>
    requires whole { IsWhole shipped kit.now }
    requires grown { IsGrown state.now.setup.defs (definitions registry.now) }
    ensures { IfOk result (λ new. IsGrown new.setup.defs (definitions registry.now)) }
{
    let specs = specs(alloc, sent)?;
    state.update(alloc, kit, registry, specs, calls)
}

fn counted<L: Ledger>(
    alloc: Global,
    kit: &Kit<Shipped>,
    registry: &Registry<Shipped>,
    case: Case<'_>,
    blank: Blank,
) -> Result<State<Shipped>, StateError>
    requires name { blank.name ≡ L.name }
    requires parts { blank.parts ≡ L.parts }
    requires some { 0 < blank.parts }
    requires whole { IsWhole shipped kit.now }
    ensures { IfOk result (λ state. IsGrown state.setup.defs (definitions registry.now)) }
{
    let mut calls: Steps<L> = Steps::new(blank);
    let mut state = created(alloc, kit, registry, case, &mut calls)?;
    for sent in case.updates {
        state = updated(alloc, kit, registry, &state, sent, &mut calls)?;
    }
    Ok(state)
}

/// The state after all of a case, or the first refusal.
pub(crate) fn after(
    alloc: Global,
    kit: &Kit<Shipped>,
    registry: &Registry<Shipped>,
    case: Case<'_>,
) -> Result<State<Shipped>, StateError>
    requires whole { IsWhole shipped kit.now }
    ensures { IfOk result (λ state. IsGrown state.setup.defs (definitions registry.now)) }
{
    counted::<Brand>(alloc, kit, registry, case, Blank::new(1))
}

fn counted_one<L: Ledger>(
    alloc: Global,
    kit: &Kit<Shipped>,
    registry: &Registry<Shipped>,
    state: &State<Shipped>,
    sent: &[Sent<'_>],
    blank: Blank,
) -> Result<State<Shipped>, StateError>
    requires name { blank.name ≡ L.name }
    requires parts { blank.parts ≡ L.parts }
    requires some { 0 < blank.parts }
    requires whole { IsWhole shipped kit.now }
    requires grown { IsGrown state.now.setup.defs (definitions registry.now) }
{
    let mut calls: Steps<L> = Steps::new(blank);
    updated(alloc, kit, registry, state, sent, &mut calls)
}

/// The state after one update more.
pub(crate) fn next(
    alloc: Global,
    kit: &Kit<Shipped>,
    registry: &Registry<Shipped>,
    state: &State<Shipped>,
    sent: &[Sent<'_>],
) -> Result<State<Shipped>, StateError>
    requires whole { IsWhole shipped kit.now }
    requires grown { IsGrown state.now.setup.defs (definitions registry.now) }
{
    counted_one::<Brand>(alloc, kit, registry, state, sent, Blank::new(1))
}
