// What states refuse.
ghost use Rattle.values.specs.Shipped.{shipped};
ghost use Rattle.values.specs.Whole.{IsWhole};

use crate::declared::{
    FIELD_SLOT, INNER, INNER_AGAIN, INNER_SLOT, LEFT, LEFT_INPUT, LIST, NOTHING, OF_FIELD, ONE,
    OUTER_SLOT, RIGHT, RIGHT_INPUT, UNKNOWN, declared,
};
use crate::long::is_refused;
use crate::reading::{Has, Refused, Want, is_no_state, refuses};
use crate::running::Case;
use crate::specs::{On, Sent};
use registry::{Registry, RegistryError};
use shipped_rules::Shipped;
use std::alloc::Global;
use values::Kit;

/// A creation over "abc".
fn over<'a>(base: &'a [u32], ranges: &'a [(u32, u32)]) -> Case<'a> {
    Case {
        base,
        document: "abc",
        ranges,
        updates: &[],
    }
}

/// Nodes of a base, and ranges over "abc".
const CREATIONS: &[(&[u32], &[(u32, u32)], Refused<'static>)] = &[
    (&[UNKNOWN], &[(0, 4)], Refused::SelectionOutside(4, 3)),
    (
        &[UNKNOWN, INNER_SLOT, INNER_AGAIN],
        &[(0, 0)],
        Refused::UnknownExt(UNKNOWN),
    ),
    (
        &[INNER_SLOT, INNER_AGAIN],
        &[(0, 0)],
        Refused::Duplicate(INNER, INNER_SLOT, INNER_AGAIN),
    ),
    (
        &[LEFT_INPUT, RIGHT_INPUT],
        &[(0, 0)],
        Refused::Cycle(&[LEFT, RIGHT]),
    ),
];

/// Updates of a state of a slot, one half of a circle, and a number, over "abc".
const UPDATES: &[(&[Sent<'static>], Refused<'static>)] = &[
    (
        &[Sent::Told(&[On::Append(RIGHT_INPUT)])],
        Refused::Cycle(&[LEFT, RIGHT]),
    ),
    (
        &[Sent::Told(&[On::Reconfigure(OF_FIELD, FIELD_SLOT)])],
        Refused::Loop(&[FIELD_SLOT, FIELD_SLOT]),
    ),
    (
        &[Sent::Told(&[On::Append(OUTER_SLOT), On::Append(INNER_AGAIN)])],
        Refused::Duplicate(INNER, INNER_SLOT, INNER_AGAIN),
    ),
    (
        &[Sent::Told(&[On::Append(UNKNOWN)])],
        Refused::UnknownExt(UNKNOWN),
    ),
    (
        &[Sent::Told(&[On::Reconfigure(3, NOTHING)])],
        Refused::UnknownCompartment(3),
    ),
    (
        &[
            Sent::Typed(&[(9, 9, "")]),
            Sent::Told(&[On::Told(7, 1), On::Reconfigure(3, NOTHING)]),
        ],
        Refused::UnknownEffect(7),
    ),
    (
        &[
            Sent::Typed(&[(0, 0, "x")]),
            Sent::Selected(&[(0, 9)], &[On::Append(UNKNOWN)]),
            Sent::Typed(&[(2, 1, "")]),
        ],
        Refused::BadRange(0),
    ),
    (
        &[
            Sent::Typed(&[(0, 0, "x")]),
            Sent::Selected(&[(0, 9)], &[On::Append(UNKNOWN)]),
        ],
        Refused::SelectionOutside(9, 3),
    ),
];

fn creations_refused(alloc: Global, kit: &Kit<Shipped>, registry: &Registry<Shipped>) -> bool
    requires { IsWhole shipped kit.now }
{
    for (base, ranges, want) in CREATIONS {
        if !is_no_state(alloc, kit, registry, over(base, ranges), *want) {
            return false;
        }
    }
    true
}

/// Whether each update is refused as it should be, and the state is as it was before.
fn updates_refused(alloc: Global, kit: &Kit<Shipped>, registry: &Registry<Shipped>) -> bool
    requires { IsWhole shipped kit.now }
{
    let case = over(&[FIELD_SLOT, LEFT_INPUT, ONE], &[(1, 1)]);
    let same = [
        Has::Facet(LEFT, Want::Nested),
        Has::Facet(LIST, Want::Ints(&[1])),
        Has::Length(3),
        Has::Ranges(&[(1, 1)]),
    ];
    for (sent, want) in UPDATES {
        if !refuses(alloc, kit, registry, case, sent, *want, &same) {
            return false;
        }
    }
    true
}

fn creations(alloc: Global, kit: &Kit<Shipped>) -> Result<bool, RegistryError>
    requires { IsWhole shipped kit.now }
{
    let registry = declared(alloc)?;
    Ok(creations_refused(alloc, kit, &registry) && is_refused(alloc, kit, &registry))
}

fn updates(alloc: Global, kit: &Kit<Shipped>) -> Result<bool, RegistryError>
    requires { IsWhole shipped kit.now }
{
    let registry = declared(alloc)?;
    Ok(updates_refused(alloc, kit, &registry))
}

/// Whether all cases hold.
pub(crate) fn all_hold(alloc: Global, kit: &Kit<Shipped>) -> bool
    requires { IsWhole shipped kit.now }
{
    creations(alloc, kit).is_ok_and(|all| all) && updates(alloc, kit).is_ok_and(|all| all)
}
