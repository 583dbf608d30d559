ghost use Rattle.std.specs.Prelude.{◌≡◌, IfOk, Some, None, cond, codes, option_copied, unwrap_or};
ghost use Rattle.std.specs.Option.{option_and_then};
ghost use Rattle.history.specs.Steps.{step};
ghost use Rattle.transaction.specs.Annotations.{annotation_of, is_kind};
ghost use Rattle.values.specs.Updating.{bool_in, history_bounds, history_input, int_in, isolation_of, next_history, text_in};
ghost use Rattle.shipped_rules.specs.Stepping.{IsInput};

use crate::history_staying::history_stays;
use crate::reading::{first_read, pair_in};
use cm_plain::{Plain, Str};
use history::{History, Isolation, StepInput};
use selection::Selection;
use std::alloc::AllocError;
use transaction::Annotation;
use values::{Deps, TrView, UpdateView, Val};

/// The annotations that a history reads (Reference Manual, Transaction.time, userEvent, addToHistory, isolateHistory).
const TIME: [char; 4] = ['t', 'i', 'm', 'e'];

const USER_EVENT: [char; 9] = ['u', 's', 'e', 'r', 'E', 'v', 'e', 'n', 't'];

const ADD_TO_HISTORY: [char; 12] = ['a', 'd', 'd', 'T', 'o', 'H', 'i', 's', 't', 'o', 'r', 'y'];

const ISOLATE: [char; 14] = [
    'i', 's', 'o', 'l', 'a', 't', 'e', 'H', 'i', 's', 't', 'o', 'r', 'y',
];

pub(crate) const FROM_HISTORY: [char; 11] = ['f', 'r', 'o', 'm', 'H', 'i', 's', 't', 'o', 'r', 'y'];

const BEFORE: [char; 6] = ['b', 'e', 'f', 'o', 'r', 'e'];

const AFTER: [char; 5] = ['a', 'f', 't', 'e', 'r'];

const FULL: [char; 4] = ['f', 'u', 'l', 'l'];

/// The sixth shipped updater: the history after the transaction (Reference Manual, history); `None` where the old value is no
/// history, or one that the transaction is seen to leave as it is. `Err`: out of memory.
pub(crate) fn next_history(old: &Val, view: &UpdateView) -> Result<Option<Val>, AllocError>
    ensures { IfOk result (λ answer. unwrap_or answer old.now ≡ next_history old.now view.now.transaction view.now.deps) }
{
    match old {
        Val::History(history) => stepped_unless_it_stays(history, view),
        _ => Ok(None),
    }
}

/// A history after the transaction; `None` where it is seen to stay as it is.
fn stepped_unless_it_stays(history: &History, view: &UpdateView) -> Result<Option<Val>, AllocError>
    ensures { IfOk result (λ answer. unwrap_or answer (Val.History history.now) ≡ Val.History (step history.now (history_input view.now.transaction (history_bounds view.now.deps)))) }
{
    if history_stays(history, &view.transaction, history_bounds(&view.deps)) {
        return Ok(None);
    }
    let next = stepped(history, view)?;
    Ok(Some(Val::History(next)))
}

/// A history after the transaction.
fn stepped(history: &History, view: &UpdateView) -> Result<History, AllocError>
    ensures { IfOk result (λ next. next ≡ step history.now (history_input view.now.transaction (history_bounds view.now.deps))) }
{
    let bounds = history_bounds(&view.deps);
    let input = history_input(&view.transaction, bounds);
    view.transaction.known();
    history.step(&input)
}

/// The first read as minDepth and newGroupDelay, or their defaults.
fn history_bounds(deps: &Deps) -> (i64, i64)
    ensures { result ≡ history_bounds deps.now }
{
    match first_read(deps) {
        Some(value) => match pair_in(value) {
            Some(bounds) => bounds,
            None => (100, 500),
        },
        None => (100, 500),
    }
}

/// What a history is told of a transaction, lent. Takes no memory.
fn history_input(transaction: &TrView, bounds: (i64, i64)) -> StepInput<'_>
    ensures { IsInput transaction.now bounds result }
{
    let annotations = transaction.annotations();
    StepInput {
        changes: transaction.changes(),
        effects: transaction.inverted(),
        document: transaction.start(),
        selection: transaction.start_selection(),
        given: given_selection(transaction),
        min_depth: bounds.0,
        delay: bounds.1,
        time: number_note(annotations, &TIME),
        user_event: text_of(annotations, &USER_EVENT),
        add_to_history: bool_note(annotations, &ADD_TO_HISTORY),
        isolate: isolation_in(annotations),
        from_history: number_note(annotations, &FROM_HISTORY),
    }
}

/// The new selection, if it was given.
fn given_selection(transaction: &TrView) -> Option<&Selection>
    ensures { option_copied result ≡ cond transaction.now.given (Some transaction.now.selection) None }
{
    if transaction.is_given() {
        Some(transaction.selection())
    } else {
        None
    }
}

/// The value of the first annotation of a kind.
fn annotation_of<'a>(annotations: &'a [Annotation], kind: &[char]) -> Option<&'a Plain>
    ensures { option_copied result ≡ annotation_of kind.now annotations.now }
{
    match annotations
        .iter()
        .find(|annotation| is_kind(annotation, kind))
    {
        Some(annotation) => Some(&annotation.value),
        None => None,
    }
}

/// Whether an annotation is of a kind.
fn is_kind(annotation: &Annotation, kind: &[char]) -> bool
    ensures { result ≡ is_kind kind.now annotation.now }
{
    annotation.kind.chars() == kind
}

/// The number that the first annotation of a kind says, if it is one.
pub(crate) fn number_note(annotations: &[Annotation], kind: &[char]) -> Option<i64>
    ensures { result ≡ option_and_then int_in (annotation_of kind.now annotations.now) }
{
    match annotation_of(annotations, kind) {
        Some(Plain::Int(number)) => Some(*number),
        _ => None,
    }
}

/// The truth value that the first annotation of a kind says, if it is one.
fn bool_note(annotations: &[Annotation], kind: &[char]) -> Option<bool>
    ensures { result ≡ option_and_then bool_in (annotation_of kind.now annotations.now) }
{
    match annotation_of(annotations, kind) {
        Some(Plain::Bool(truth)) => Some(*truth),
        _ => None,
    }
}

/// The text that the first annotation of a kind says, if it is one.
fn text_of<'a>(annotations: &'a [Annotation], kind: &[char]) -> Option<&'a Str>
    ensures { option_copied result ≡ option_and_then text_in (annotation_of kind.now annotations.now) }
{
    match annotation_of(annotations, kind) {
        Some(Plain::Text(text)) => Some(text),
        _ => None,
    }
}

/// Where the group is closed.
fn isolation_in(annotations: &[Annotation]) -> Option<Isolation>
    ensures { result ≡ option_and_then isolation_of (option_and_then text_in (annotation_of (codes "isolateHistory") annotations.now)) }
{
    match text_of(annotations, &ISOLATE) {
        Some(text) => isolation_of(text.chars()),
        None => None,
    }
}

/// The isolation of a name.
fn isolation_of(name: &[char]) -> Option<Isolation>
    ensures { result ≡ isolation_of name.now }
{
    if name == BEFORE.as_slice() {
        Some(Isolation::Before)
    } else if name == AFTER.as_slice() {
        Some(Isolation::After)
    } else if name == FULL.as_slice() {
        Some(Isolation::Full)
    } else {
        None
    }
}
