// Histories that a transaction leaves as they are.
ghost use Rattle.std.specs.Prelude.{◌≡◌, ◌≤◌, IsTrue, length, true};
ghost use Rattle.history.specs.Items.{change_count};
ghost use Rattle.history.specs.Steps.{cut_to, kept_count, step};
ghost use Rattle.values.specs.Updating.{history_input};
ghost use Rattle.shipped_rules.specs.Stepping.{HasNothingForHistory};

use crate::stepping::{FROM_HISTORY, number_note};
use history::History;
use values::TrView;

/// Whether a transaction leaves a history as it is, as far as the counts of its items and its newest Changes tell: the transaction
/// has nothing for a history, the depth cuts nothing off, and the history leads from the start document. Takes no memory.
pub(crate) fn history_stays(history: &History, transaction: &TrView, bounds: (i64, i64)) -> bool
    ensures { IsTrue result → step history.now (history_input transaction.now bounds) ≡ history.now }
{
    has_nothing_for_history(transaction)
        && is_uncut(history, bounds.0)
        && history.leads_from(transaction.start().len())
}

/// Whether a transaction has nothing for a history: it changes nothing, has no effect to undo, gives no selection, and doesn't say
/// that it comes from the history.
fn has_nothing_for_history(transaction: &TrView) -> bool
    ensures { IsTrue result → HasNothingForHistory transaction.now }
{
    transaction.changes().is_empty()
        && transaction.inverted().is_empty()
        && !transaction.is_given()
        && number_note(transaction.annotations(), &FROM_HISTORY).is_none()
}

/// Whether all items of a history are Changes, at least one of which can be undone, and no more than the depth keeps. Where none can,
/// no call of `history` tells that the group is closed, as it then has to be.
fn is_uncut(history: &History, depth: i64) -> bool
    ensures { IsTrue result → cut_to depth history.now ≡ history.now }
{
    let (done, _) = history.depth();
    done > 0 && keeps(depth, done) && has_changes_alone(history)
}

/// Whether all items of a history are Changes.
fn has_changes_alone(history: &History) -> bool
    ensures done { IsTrue result → length history.now.done ≡ change_count history.now.done }
    ensures undone { IsTrue result → length history.now.undone ≡ change_count history.now.undone }
{
    let (items, undone_items) = history.items();
    let (done, undone) = history.depth();
    items == done && undone_items == undone
}

/// Whether a depth keeps so many Changes.
fn keeps(depth: i64, changes: usize) -> bool
    ensures { IsTrue result → changes ≤ kept_count depth }
{
    depth >= 0 && changes <= depth as usize
}
