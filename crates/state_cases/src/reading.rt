// What states have, and what they are refused as.
ghost use Rattle.values.specs.Shipped.{shipped};
ghost use Rattle.values.specs.Whole.{IsWhole};
ghost use Rattle.facet_slots.specs.Agreement.{IsGrown};
ghost use Rattle.facet_slots.specs.Lent.{definitions};

use crate::running::{Case, after, next};
use crate::specs::Sent;
use cm_plain::Plain;
use configuration::Vertex;
use registry::Registry;
use selection::Selection;
use shipped_rules::Shipped;
use state::{State, StateError};
use std::alloc::Global;
use values::{Kit, Val};

/// A value.
#[derive(Clone, Copy)]
pub(crate) enum Want<'a> {
    /// A field that is absent.
    Absent,
    Int(i64),
    Ints(&'a [i64]),
    /// A list of an empty list.
    Nested,
}

/// What a state has.
#[derive(Clone, Copy)]
pub(crate) enum Has<'a> {
    Facet(u32, Want<'a>),
    Field(u32, Want<'a>),
    Length(u32),
    /// The ranges of the selection.
    Ranges(&'a [(u32, u32)]),
}

/// What a call is refused as.
#[derive(Clone, Copy)]
pub(crate) enum Refused<'a> {
    BadRange(usize),
    TooLong(u64),
    SelectionOutside(u32, u32),
    UnknownEffect(u32),
    UnknownCompartment(u32),
    UnknownExt(u32),
    Duplicate(u32, u32, u32),
    Loop(&'a [u32]),
    Cycle(&'a [u32]),
}

fn is_int(plain: &Plain, want: i64) -> bool {
    match plain {
        Plain::Int(number) => *number == want,
        _ => false,
    }
}

fn are_ints(items: &[Plain], want: &[i64]) -> bool {
    if items.len() != want.len() {
        return false;
    }
    for (item, number) in items.iter().zip(want) {
        if !is_int(item, *number) {
            return false;
        }
    }
    true
}

fn is_nested(items: &[Plain]) -> bool {
    match items {
        [Plain::List(inner)] => inner.as_slice().is_empty(),
        _ => false,
    }
}

fn is(value: &Val, want: Want<'_>) -> bool {
    match (value, want) {
        (Val::Plain(plain), Want::Int(number)) => is_int(plain, number),
        (Val::Plain(Plain::List(list)), Want::Ints(numbers)) => are_ints(list.as_slice(), numbers),
        (Val::Plain(Plain::List(list)), Want::Nested) => is_nested(list.as_slice()),
        _ => false,
    }
}

fn facet_is(state: &State<Shipped>, facet: u32, want: Want<'_>) -> bool {
    if (facet as usize) < state.facet_count() {
        is(state.facet(facet), want)
    } else {
        false
    }
}

fn field_is(state: &State<Shipped>, field: u32, want: Want<'_>) -> bool {
    match (state.field(field), want) {
        (Some(value), want) => is(value, want),
        (None, Want::Absent) => true,
        _ => false,
    }
}

fn ranges_are(selection: &Selection, want: &[(u32, u32)]) -> bool {
    if selection.ranges().len() != want.len() {
        return false;
    }
    for (range, (anchor, head)) in selection.ranges().iter().zip(want) {
        if range.anchor != *anchor || range.head != *head {
            return false;
        }
    }
    true
}

fn holds(state: &State<Shipped>, want: Has<'_>) -> bool {
    match want {
        Has::Facet(facet, want) => facet_is(state, facet, want),
        Has::Field(field, want) => field_is(state, field, want),
        Has::Length(len) => state.doc().len() == len,
        Has::Ranges(ranges) => ranges_are(state.selection(), ranges),
    }
}

/// Whether a state has all of these.
pub(crate) fn has_all(state: &State<Shipped>, all: &[Has<'_>]) -> bool {
    for want in all {
        if !holds(state, *want) {
            return false;
        }
    }
    true
}

fn are_facets(members: &[Vertex], want: &[u32]) -> bool {
    if members.len() != want.len() {
        return false;
    }
    for (member, facet) in members.iter().zip(want) {
        if *member != Vertex::Facet(*facet) {
            return false;
        }
    }
    true
}

/// Whether an error is this refusal.
fn is_error(error: &StateError, want: Refused<'_>) -> bool {
    match (error, want) {
        (StateError::BadRange { index, .. }, Refused::BadRange(at)) => *index == at,
        (StateError::TooLong { len, .. }, Refused::TooLong(of)) => *len == of,
        (StateError::SelectionOutside { pos, len }, Refused::SelectionOutside(at, of)) => {
            *pos == at && *len == of
        }
        (StateError::UnknownEffect { id }, Refused::UnknownEffect(of)) => *id == of,
        (StateError::UnknownCompartment { id }, Refused::UnknownCompartment(of)) => *id == of,
        (StateError::UnknownExt { id }, Refused::UnknownExt(of)) => *id == of,
        (
            StateError::DuplicateCompartment {
                compartment,
                first,
                second,
            },
            Refused::Duplicate(of, one, other),
        ) => *compartment == of && *first == one && *second == other,
        (StateError::CompartmentLoop { path }, Refused::Loop(nodes)) => path.ids() == nodes,
        (StateError::Cycle { members }, Refused::Cycle(facets)) => {
            are_facets(members.as_slice(), facets)
        }
        _ => false,
    }
}

/// Whether the state after all of a case has all of these; not where it is refused or out of memory.
pub(crate) fn gives(
    alloc: Global,
    kit: &Kit<Shipped>,
    registry: &Registry<Shipped>,
    case: Case<'_>,
    all: &[Has<'_>],
) -> bool
    requires { IsWhole shipped kit.now }
{
    match after(alloc, kit, registry, case) {
        Ok(state) => has_all(&state, all),
        Err(_) => false,
    }
}

/// Whether a creation is refused so.
pub(crate) fn is_no_state(
    alloc: Global,
    kit: &Kit<Shipped>,
    registry: &Registry<Shipped>,
    case: Case<'_>,
    want: Refused<'_>,
) -> bool
    requires { IsWhole shipped kit.now }
{
    match after(alloc, kit, registry, case) {
        Ok(_) => false,
        Err(error) => is_error(&error, want),
    }
}

/// Whether one update more is refused so, and the state has all of these after it.
fn is_kept(
    alloc: Global,
    kit: &Kit<Shipped>,
    registry: &Registry<Shipped>,
    state: &State<Shipped>,
    sent: &[Sent<'_>],
    want: Refused<'_>,
) -> bool
    requires whole { IsWhole shipped kit.now }
    requires grown { IsGrown state.now.setup.defs (definitions registry.now) }
{
    match next(alloc, kit, registry, state, sent) {
        Ok(_) => false,
        Err(error) => is_error(&error, want),
    }
}

/// Whether one update after a case is refused so, and the state has all of these after it.
pub(crate) fn refuses(
    alloc: Global,
    kit: &Kit<Shipped>,
    registry: &Registry<Shipped>,
    case: Case<'_>,
    sent: &[Sent<'_>],
    want: Refused<'_>,
    all: &[Has<'_>],
) -> bool
    requires { IsWhole shipped kit.now }
{
    match after(alloc, kit, registry, case) {
        Ok(state) => is_kept(alloc, kit, registry, &state, sent, want) && has_all(&state, all),
        Err(_) => false,
    }
}
