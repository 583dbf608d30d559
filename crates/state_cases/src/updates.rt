// States through updates.
ghost use Rattle.values.specs.Shipped.{shipped};
ghost use Rattle.values.specs.Whole.{IsWhole};

use crate::declared::{
    FIELD_SLOT, GROWN, GROWN_NODE, INNER, INNER_SLOT, LEFT, LEFT_INPUT, LENGTH, LENGTH_INPUT, LIST,
    NOTHING, OF_FIELD, ONE, OUTER, OUTER_SLOT, SEVERAL, SUM, SUM_INPUT, TWO, declared,
};
use crate::reading::{Has, Want, gives};
use crate::running::Case;
use crate::specs::{On, Sent};
use registry::Registry;
use shipped_rules::Shipped;
use std::alloc::Global;
use values::Kit;

const CHAIN: &[u32] = &[LENGTH_INPUT, SUM_INPUT];

const INSERTED: Sent<'static> = Sent::Typed(&[(2, 2, "c")]);

const LEAVES: Sent<'static> = Sent::Told(&[On::Reconfigure(OF_FIELD, NOTHING)]);

const COMES_BACK: Sent<'static> = Sent::Both(
    &[(3, 3, "de")],
    &[On::Reconfigure(OF_FIELD, GROWN_NODE)],
);

const VALUES: &[(&str, Case<'static>, &[Has<'static>])] = &[
    (
        "a facet of a facet",
        Case {
            base: CHAIN,
            document: "ab",
            ranges: &[(0, 0)],
            updates: &[],
        },
        &[
            Has::Facet(SUM, Want::Int(2)),
            Has::Facet(LIST, Want::Ints(&[])),
        ],
    ),
    (
        "a facet of a facet, after an insertion",
        Case {
            base: CHAIN,
            document: "ab",
            ranges: &[(0, 0)],
            updates: &[&[INSERTED]],
        },
        &[
            Has::Facet(SUM, Want::Int(3)),
            Has::Facet(LENGTH, Want::Int(3)),
            Has::Length(3),
        ],
    ),
    (
        "specs merged into one transaction",
        Case {
            base: &[LENGTH_INPUT, GROWN_NODE],
            document: "abc",
            ranges: &[(3, 3)],
            updates: &[&[Sent::Typed(&[(0, 0, "x")]), Sent::Typed(&[(1, 1, "y")])]],
        },
        &[
            Has::Facet(LENGTH, Want::Int(5)),
            Has::Field(GROWN, Want::Int(4)),
            Has::Ranges(&[(5, 5)]),
        ],
    ),
    (
        "a field in a slot",
        Case {
            base: &[FIELD_SLOT],
            document: "ab",
            ranges: &[(0, 0)],
            updates: &[],
        },
        &[Has::Field(GROWN, Want::Int(2))],
    ),
    (
        "a field that leaves",
        Case {
            base: &[FIELD_SLOT],
            document: "ab",
            ranges: &[(0, 0)],
            updates: &[&[LEAVES]],
        },
        &[Has::Field(GROWN, Want::Absent)],
    ),
    (
        "a field that comes back is created over the old document, and then updated once",
        Case {
            base: &[FIELD_SLOT],
            document: "ab",
            ranges: &[(0, 0)],
            updates: &[&[LEAVES], &[INSERTED], &[COMES_BACK]],
        },
        &[Has::Field(GROWN, Want::Int(4)), Has::Length(5)],
    ),
];

const SLOTS: &[(&str, Case<'static>, &[Has<'static>])] = &[
    (
        "nested slots",
        Case {
            base: &[OUTER_SLOT],
            document: "",
            ranges: &[(0, 0)],
            updates: &[],
        },
        &[Has::Facet(LIST, Want::Ints(&[1]))],
    ),
    (
        "the inner one set",
        Case {
            base: &[OUTER_SLOT],
            document: "",
            ranges: &[(0, 0)],
            updates: &[&[Sent::Told(&[On::Reconfigure(INNER, TWO)])]],
        },
        &[Has::Facet(LIST, Want::Ints(&[2]))],
    ),
    (
        "the set content stays where the root is replaced",
        Case {
            base: &[OUTER_SLOT],
            document: "",
            ranges: &[(0, 0)],
            updates: &[&[Sent::Told(&[On::Reconfigure(INNER, TWO), On::Root(&[INNER_SLOT])])]],
        },
        &[Has::Facet(LIST, Want::Ints(&[2]))],
    ),
    (
        "the set content is dropped where its compartment isn't met",
        Case {
            base: &[OUTER_SLOT],
            document: "",
            ranges: &[(0, 0)],
            updates: &[
                &[Sent::Told(&[On::Reconfigure(INNER, TWO)])],
                &[Sent::Told(&[On::Reconfigure(OUTER, NOTHING)])],
                &[Sent::Told(&[On::Reconfigure(OUTER, INNER_SLOT)])],
            ],
        },
        &[Has::Facet(LIST, Want::Ints(&[1]))],
    ),
    (
        "appended nodes are dropped where the root is replaced",
        Case {
            base: &[],
            document: "",
            ranges: &[(0, 0)],
            updates: &[
                &[Sent::Told(&[On::Append(ONE), On::Append(TWO)])],
                &[Sent::Told(&[On::Root(&[TWO])])],
            ],
        },
        &[Has::Facet(LIST, Want::Ints(&[2]))],
    ),
    (
        "effects act in order",
        Case {
            base: &[],
            document: "",
            ranges: &[(0, 0)],
            updates: &[&[Sent::Told(&[On::Append(ONE), On::Root(&[TWO]), On::Append(ONE)])]],
        },
        &[Has::Facet(LIST, Want::Ints(&[2, 1]))],
    ),
    (
        "a facet whose inputs leave keeps that of none through updates",
        Case {
            base: &[OUTER_SLOT],
            document: "",
            ranges: &[(0, 0)],
            updates: &[
                &[Sent::Told(&[On::Reconfigure(OUTER, NOTHING)])],
                &[Sent::Typed(&[(0, 0, "x")])],
                &[Sent::Typed(&[(0, 0, "y")])],
            ],
        },
        &[Has::Facet(LIST, Want::Ints(&[])), Has::Length(2)],
    ),
    (
        "inputs that come back after such updates",
        Case {
            base: &[OUTER_SLOT],
            document: "",
            ranges: &[(0, 0)],
            updates: &[
                &[Sent::Told(&[On::Reconfigure(OUTER, NOTHING)])],
                &[Sent::Typed(&[(0, 0, "x")])],
                &[Sent::Typed(&[(0, 0, "y")])],
                &[Sent::Told(&[On::Reconfigure(OUTER, INNER_SLOT)])],
                &[Sent::Typed(&[(0, 0, "z")])],
            ],
        },
        &[Has::Facet(LIST, Want::Ints(&[1])), Has::Length(3)],
    ),
    (
        "an input that comes after updates without it",
        Case {
            base: &[],
            document: "",
            ranges: &[(0, 0)],
            updates: &[
                &[Sent::Typed(&[(0, 0, "x")])],
                &[Sent::Typed(&[(0, 0, "y")])],
                &[Sent::Told(&[On::Append(LENGTH_INPUT)])],
                &[Sent::Typed(&[(0, 0, "z")])],
            ],
        },
        &[
            Has::Facet(LENGTH, Want::Int(3)),
            Has::Facet(SUM, Want::Int(0)),
        ],
    ),
    (
        "one half of a circle",
        Case {
            base: &[],
            document: "",
            ranges: &[(0, 0)],
            updates: &[&[Sent::Told(&[On::Append(LEFT_INPUT)])]],
        },
        &[Has::Facet(LEFT, Want::Nested)],
    ),
];

const SELECTIONS: &[(&str, Case<'static>, &[Has<'static>])] = &[
    (
        "a first selection is cut to its main range",
        Case {
            base: &[],
            document: "abcd",
            ranges: &[(3, 4), (0, 1)],
            updates: &[],
        },
        &[Has::Ranges(&[(3, 4)])],
    ),
    (
        "several ranges where they are allowed",
        Case {
            base: &[SEVERAL],
            document: "abcd",
            ranges: &[(3, 4), (0, 1)],
            updates: &[],
        },
        &[Has::Ranges(&[(0, 1), (3, 4)])],
    ),
    (
        "the state before an update decides",
        Case {
            base: &[],
            document: "abcd",
            ranges: &[(0, 0)],
            updates: &[&[Sent::Selected(&[(3, 4), (0, 1)], &[On::Append(SEVERAL)])]],
        },
        &[Has::Ranges(&[(3, 4)])],
    ),
    (
        "a given selection, and the old one mapped",
        Case {
            base: &[SEVERAL],
            document: "abcd",
            ranges: &[(0, 0)],
            updates: &[
                &[Sent::Selected(&[(3, 4), (0, 1)], &[])],
                &[Sent::Typed(&[(0, 0, "xy")])],
            ],
        },
        &[Has::Ranges(&[(2, 3), (5, 6)])],
    ),
];

fn all_give(
    alloc: Global,
    kit: &Kit<Shipped>,
    registry: &Registry<Shipped>,
    cases: &[(&str, Case<'_>, &[Has<'_>])],
) -> Option<usize>
    requires { IsWhole shipped kit.now }
{
    for (at, (_name, case, all)) in cases.iter().enumerate() {
        if !gives(alloc, kit, registry, *case, all) {
            return Some(at);
        }
    }
    None
}

/// The index of the first case that fails; past them all where nothing could be declared.
fn first_failure(
    alloc: Global,
    kit: &Kit<Shipped>,
    cases: &[(&str, Case<'_>, &[Has<'_>])],
) -> Option<usize>
    requires { IsWhole shipped kit.now }
{
    match declared(alloc) {
        Ok(registry) => all_give(alloc, kit, &registry, cases),
        Err(_) => Some(cases.len()),
    }
}

/// Whether all cases hold.
pub(crate) fn all_hold(alloc: Global, kit: &Kit<Shipped>) -> bool
    requires { IsWhole shipped kit.now }
{
    first_failure(alloc, kit, VALUES).is_none()
        && first_failure(alloc, kit, SLOTS).is_none()
        && first_failure(alloc, kit, SELECTIONS).is_none()
}
