// How many rules are called, and whether a step is made where those that aren't due refuse.
ghost use Rattle.values.specs.Shipped.{shipped};
ghost use Rattle.values.specs.Whole.{IsWhole};

use crate::declared::declared;
use crate::running::{first, next};
use crate::transactions::Sent;
use facet_slots::Slots;
use registry::Registry;
use shipped_kit::{Answering, Gate};
use shipped_rules::Shipped;
use std::alloc::Global;
use values::Kit;

/// The number of the computer that gives the length of the document.
const LENGTH_RULE: u32 = 1;

/// The calls of a creation: one for the field, one for each of two computed inputs, and one for each of thirteen facets, of which
/// ten are declared from the start.
const CREATION: u32 = 1 + 2 + 13;

/// A transaction after a creation.
#[derive(Clone, Copy)]
struct Row<'a> {
    /// The comparer of the inputs of the first facet: 1 tells whether values are the same, 2 never says so.
    compare_input: u32,
    sent: Sent<'a>,
    /// The calls that it makes.
    calls: u32,
    /// Whether it is made where no computer, combiner or creator answers.
    needs_updaters_alone: bool,
    /// The same where the computer of the length answers too.
    needs_length_at_most: bool,
}

const ROWS: &[Row<'static>] = &[
    // the field, and both computed inputs with their facets
    Row {
        compare_input: 1,
        sent: Sent::Typed(2, 2, &['c']),
        calls: 5,
        needs_updaters_alone: false,
        needs_length_at_most: false,
    },
    // the field, and the input that reads the document
    Row {
        compare_input: 1,
        sent: Sent::Typed(0, 1, &['x']),
        calls: 2,
        needs_updaters_alone: false,
        needs_length_at_most: true,
    },
    // the field
    Row {
        compare_input: 1,
        sent: Sent::Nothing,
        calls: 1,
        needs_updaters_alone: true,
        needs_length_at_most: true,
    },
    // the field
    Row {
        compare_input: 1,
        sent: Sent::Selected(1),
        calls: 1,
        needs_updaters_alone: true,
        needs_length_at_most: true,
    },
    // the field, the input that reads the document, and its facet, whose value is then the same
    Row {
        compare_input: 2,
        sent: Sent::Typed(0, 1, &['x']),
        calls: 3,
        needs_updaters_alone: false,
        needs_length_at_most: false,
    },
];

/// Whether a transaction is made where these rules answer.
fn is_made(
    alloc: Global,
    kit: &Kit<Shipped>,
    gate: &Gate,
    slots: &Slots<Shipped>,
    sent: Sent<'_>,
    answering: Answering,
) -> bool
    requires { IsWhole shipped kit.now }
{
    gate.start(answering);
    next(alloc, kit, slots, sent).is_ok()
}

/// Whether a transaction after a creation is as its row says.
fn is_row_of(
    alloc: Global,
    kit: &Kit<Shipped>,
    gate: &Gate,
    slots: &Slots<Shipped>,
    row: &Row<'_>,
) -> bool
    requires { IsWhole shipped kit.now }
{
    let sent = row.sent;
    is_made(alloc, kit, gate, slots, sent, Answering::All)
        && gate.calls() == row.calls
        && is_made(alloc, kit, gate, slots, sent, Answering::Updaters) == row.needs_updaters_alone
        && is_made(
            alloc,
            kit,
            gate,
            slots,
            sent,
            Answering::UpdatersAndComputer(LENGTH_RULE),
        ) == row.needs_length_at_most
}

/// Whether a creation and the transaction after it are as a row says.
fn is_row_over(
    alloc: Global,
    kit: &Kit<Shipped>,
    gate: &Gate,
    registry: &Registry<Shipped>,
    row: &Row<'_>,
) -> bool
    requires { IsWhole shipped kit.now }
{
    gate.start(Answering::All);
    match first(alloc, kit, registry) {
        Ok(slots) => { gate.calls() == CREATION && is_row_of(alloc, kit, gate, &slots, row) }
        Err(_) => false,
    }
}

fn is_row(alloc: Global, kit: &Kit<Shipped>, gate: &Gate, row: &Row<'_>) -> bool
    requires { IsWhole shipped kit.now }
{
    match declared(alloc, row.compare_input) {
        Ok(registry) => is_row_over(alloc, kit, gate, &registry, row),
        Err(_) => false,
    }
}

/// The index of the first row that isn't so.
fn first_failure(alloc: Global, kit: &Kit<Shipped>, gate: &Gate) -> Option<usize>
    requires { IsWhole shipped kit.now }
{
    for (at, row) in ROWS.iter().enumerate() {
        if !is_row(alloc, kit, gate, row) {
            return Some(at);
        }
    }
    None
}

/// Whether each row is so, with a kit behind this gate.
pub(crate) fn are_rows(alloc: Global, kit: &Kit<Shipped>, gate: &Gate) -> bool
    requires { IsWhole shipped kit.now }
{
    first_failure(alloc, kit, gate).is_none()
}
