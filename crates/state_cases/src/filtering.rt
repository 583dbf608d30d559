// Filters and extenders in updates.
ghost use Rattle.values.specs.Shipped.{shipped};
ghost use Rattle.values.specs.Whole.{IsWhole};

use crate::declared::{BREAKS, LIMIT, LIMITED, NONE_STAYS, TELLS, TOLD, TOLD_NODE, declared};
use crate::reading::{Has, Want, gives};
use crate::running::Case;
use crate::specs::{On, Sent};
use registry::Registry;
use shipped_rules::Shipped;
use std::alloc::Global;
use values::Kit;

const TYPED: Sent<'static> = Sent::Typed(&[(2, 2, "c")]);

const UNFILTERED: Sent<'static> = Sent::Unfiltered(&[(2, 2, "c")]);

/// Nodes of a base, updates of "ab", and what the state after them has.
const FILTERED: &[(&str, &[u32], &[&[Sent<'static>]], &[Has<'static>])] = &[
    (
        "a transaction filter adds a break after the insertion",
        &[BREAKS],
        &[&[TYPED]],
        &[Has::Length(4)],
    ),
    (
        "no filter is asked where the spec says so",
        &[BREAKS, NONE_STAYS],
        &[&[UNFILTERED]],
        &[Has::Length(3)],
    ),
    (
        "change filters are asked before transaction filters, which then see no change",
        &[BREAKS, NONE_STAYS],
        &[&[TYPED]],
        &[Has::Length(2)],
    ),
    (
        "the filter of lower precedence is asked first, and sees no break",
        &[BREAKS, LIMITED, LIMIT],
        &[&[TYPED]],
        &[Has::Length(4)],
    ),
    (
        "the filter of higher precedence sees the break",
        &[LIMITED, BREAKS, LIMIT],
        &[&[TYPED]],
        &[Has::Length(2)],
    ),
    (
        "what filters there are is told by the state before",
        &[],
        &[
            &[Sent::Both(&[(2, 2, "c")], &[On::Append(BREAKS)])],
            &[TYPED],
        ],
        &[Has::Length(5)],
    ),
    (
        "a field hears the effect of an extender",
        &[TELLS, TOLD_NODE],
        &[&[TYPED]],
        &[Has::Field(TOLD, Want::Ints(&[2]))],
    ),
    (
        "extenders are asked where filters aren't",
        &[TELLS, TOLD_NODE, NONE_STAYS],
        &[&[UNFILTERED]],
        &[Has::Field(TOLD, Want::Ints(&[2])), Has::Length(3)],
    ),
];

/// An update of "ab" by these nodes.
fn over<'a>(base: &'a [u32], updates: &'a [&'a [Sent<'a>]]) -> Case<'a> {
    Case {
        base,
        document: "ab",
        ranges: &[(0, 0)],
        updates,
    }
}

fn all_give(alloc: Global, kit: &Kit<Shipped>, registry: &Registry<Shipped>) -> bool
    requires { IsWhole shipped kit.now }
{
    for (_name, base, updates, all) in FILTERED {
        if !gives(alloc, kit, registry, over(base, updates), all) {
            return false;
        }
    }
    true
}

/// Whether all cases hold.
pub(crate) fn all_hold(alloc: Global, kit: &Kit<Shipped>) -> bool
    requires { IsWhole shipped kit.now }
{
    match declared(alloc) {
        Ok(registry) => all_give(alloc, kit, &registry),
        Err(_) => false,
    }
}
