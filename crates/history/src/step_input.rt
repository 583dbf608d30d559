ghost use Rattle.std.specs.Prelude.{IfOk, is_some, length, option_copied, ◌≡◌, ◌||◌};
ghost use Rattle.change_desc.specs.Sections.{old_size};
ghost use Rattle.history.specs.Joining.{is_joinable, is_near, is_soon, is_within};
ghost use Rattle.history.specs.Selecting.{are_close, are_selecting, goes_elsewhere, is_false, left_select, makes_select, select_joins};
ghost use Rattle.history.specs.Steps.{goes_over, is_from, is_idle_step, own_case, start_select, way_back};

use crate::case::Case;
use crate::group::Group;
use crate::isolation::Isolation;
use crate::item::{ChangeItem, SelectItem};
use crate::items::Items;
use change_set::ChangeSet;
use cm_plain::{KeptEffect, Str};
use line_tree::Text;
use listed::Listed;
use selection::Selection;
use std::alloc::{AllocError, Global};
use std::marker::Model;

/// The user event of typed text, that of a deletion, and that of a selection (Reference Manual, Transaction.userEvent).
const INPUT_TYPE: [char; 10] = ['i', 'n', 'p', 'u', 't', '.', 't', 'y', 'p', 'e'];

const DELETION: [char; 6] = ['d', 'e', 'l', 'e', 't', 'e'];

const SELECTING: [char; 6] = ['s', 'e', 'l', 'e', 'c', 't'];

/// A step of a document, as its history sees it (Reference Manual, Transaction), lent. Times are in milliseconds. Contracts see
/// what it lends.
#[derive(Drop)]
pub struct StepInput<'a> {
    /// The changes of the start document.
    pub changes: &'a ChangeSet,
    /// What undoes the effects of the step, in the start document.
    pub effects: &'a [KeptEffect],
    /// The start document.
    pub document: &'a Text,
    /// The selection in the start document.
    pub selection: &'a Selection,
    /// The selection in the new document, if the step gives one.
    pub given: Option<&'a Selection>,
    /// How many Changes that can be undone are kept (HistoryConfig.minDepth); 0 or less keeps none.
    pub min_depth: i64,
    /// A change joins a group whose last change is less than this time ago (HistoryConfig.newGroupDelay); where it is 0 or
    /// less none joins.
    pub delay: i64,
    /// The time of the step (Transaction.time).
    pub time: Option<i64>,
    /// The user event (Transaction.userEvent).
    pub user_event: Option<&'a Str>,
    /// Whether the step is to be recorded (Transaction.addToHistory); it is where nothing is said.
    pub add_to_history: Option<bool>,
    /// Where the group of the changes is closed (isolateHistory).
    pub isolate: Option<Isolation>,
    /// That the step comes from the history itself: 0 from an undo and 1 from a redo of changes, 2 from an undo and 3 from a
    /// redo of a selection alone.
    pub from_history: Option<i64>,
}

impl<'a> Model for StepInput<'a> {
    ghost use Rattle.std.specs.Prelude.{option_copied};
    ghost use Rattle.std.specs.Coded.{codes};
    ghost use Rattle.cm_plain.specs.Datum.{coded_datum};
    ghost use Rattle.history.specs.Inputs.{StepView};

    ghost Value = { StepView };

    ghost coded = { Prim.hlevel (codes, coded_datum) };

    ghost view = { λ i. record {
      changes = i.changes.now;
      effects = i.effects.now;
      document = i.document.now;
      selection = i.selection.now;
      given = option_copied i.given;
      min_depth = i.min_depth;
      delay = i.delay;
      time = i.time;
      user_event = option_copied i.user_event;
      add_to_history = i.add_to_history;
      isolate = i.isolate;
      from_history = i.from_history;
    } };
}

/// Whether a time lies less than the delay, which is over 0, after the last one.
fn is_within(last: i64, now: i64, delay: i64) -> bool
    ensures { result ≡ is_within last now delay }
{
    delay > 0 && i128::from(now) - i128::from(last) < i128::from(delay)
}

impl<'a> StepInput<'a> {
    /// Whether it says that it comes from the history, by this number.
    pub(crate) fn is_from(&self, number: i64) -> bool
        ensures { result ≡ is_from number self.now.from_history }
    {
        match self.from_history {
            Some(given) => given == number,
            None => false,
        }
    }

    /// Whether it changes nothing, and its effects need not be undone.
    fn is_idle(&self) -> bool
        ensures { result ≡ is_idle_step self.now }
    {
        self.changes.is_empty() && self.effects.is_empty()
    }

    /// Whether it goes over the newest item of a list, by the list's number, where that is a Select.
    pub(crate) fn goes_over(&self, number: i64, is_select: bool) -> bool
        ensures { result ≡ goes_over number self.now is_select }
    {
        self.is_from(number) && self.changes.is_empty() && is_select
    }

    /// Its case where it doesn't go over an item.
    pub(crate) fn own_case(&self) -> Case
        ensures { result ≡ own_case self.now }
    {
        if self.is_idle() {
            Case::Unchanged
        } else if self.is_unrecorded() {
            Case::Unrecorded
        } else {
            Case::Recorded
        }
    }

    /// Whether its changes are not to be recorded.
    fn is_unrecorded(&self) -> bool
        ensures { result ≡ (is_some self.now.from_history || is_false self.now.add_to_history) }
    {
        match (self.from_history, self.add_to_history) {
            (Some(_), _) | (_, Some(false)) => true,
            _ => false,
        }
    }

    /// Whether its user event lets it join a group.
    pub(crate) fn is_joinable(&self) -> bool
        ensures { result ≡ is_joinable self.now.user_event }
    {
        match self.user_event {
            None => true,
            Some(event) => { event.is_below(&INPUT_TYPE) || event.is_below(&DELETION) }
        }
    }

    /// Whether it comes soon enough to join a group.
    pub(crate) fn is_soon(&self, group: Group) -> bool
        ensures { result ≡ is_soon group self.now.time self.now.delay }
    {
        match (group, self.time) {
            (Group::Open { last: Some(last) }, Some(now)) => is_within(last, now, self.delay),
            _ => false,
        }
    }

    /// The Change that leads back to its start. `Err`: out of memory.
    #[inline(always)]
    pub(crate) fn way_back(&self, alloc: Global) -> Result<ChangeItem, AllocError>
        requires { old_size self.now.changes ≡ length self.now.document.characters }
        ensures { IfOk result (λ change. change ≡ way_back self.now) }
    {
        Ok(ChangeItem {
            changes: self.changes.invert(self.document)?,
            effects: copied(alloc, self.effects)?,
            selection: self.selection.try_copy()?,
        })
    }

    /// Its start selection by itself. `Err`: out of memory.
    pub(crate) fn start_select(&self) -> Result<SelectItem, AllocError>
        ensures { IfOk result (λ select. select ≡ start_select self.now) }
    {
        Ok(SelectItem {
            selection: self.selection.try_copy()?,
            time: None,
            user_event: None,
        })
    }

    /// The selection that it leaves, with its time and user event. `Err`: out of memory.
    pub(crate) fn left_select(&self) -> Result<SelectItem, AllocError>
        ensures { IfOk result (λ select. select ≡ left_select self.now) }
    {
        Ok(SelectItem {
            selection: self.selection.try_copy()?,
            time: self.time,
            user_event: copied_event(self.user_event)?,
        })
    }

    /// Whether it gives a selection that differs from the start one.
    fn goes_elsewhere(&self) -> bool
        ensures { result ≡ goes_elsewhere self.now }
    {
        match self.given {
            None => false,
            Some(given) => !self.selection.same(given),
        }
    }

    /// Whether the selection that it leaves is kept.
    pub(crate) fn makes_select(&self) -> bool
        ensures { result ≡ makes_select self.now }
    {
        self.goes_elsewhere() && !is_false(self.add_to_history) && self.from_history.is_none()
    }

    /// Whether the selection that it leaves joins a Select.
    pub(crate) fn select_joins(&self, select: &SelectItem) -> bool
        ensures { result ≡ select_joins select.now self.now }
    {
        are_selecting(select.user_event.as_ref(), self.user_event)
            && are_close(select.time, self.time, self.delay)
            && select.selection.ranges().len() == self.selection.ranges().len()
    }

    /// Whether a range that it replaces overlaps or touches one that the newest item, a Change, replaces.
    pub(crate) fn is_near(&self, items: &Items) -> Result<bool, AllocError>
        ensures { IfOk result (λ near. near ≡ is_near self.now items.now) }
    {
        match items.first_change() {
            None => Ok(false),
            Some(change) => self.changes.meets(&change.changes),
        }
    }
}

/// Whether it is said to be false.
fn is_false(said: Option<bool>) -> bool
    ensures { result ≡ is_false said }
{
    match said {
        Some(false) => true,
        _ => false,
    }
}

/// Whether both events are the same, `select` or below it.
fn are_selecting(first: Option<&Str>, second: Option<&Str>) -> bool
    ensures { result ≡ are_selecting (option_copied first.entry) (option_copied second.entry) }
{
    match (first, second) {
        (Some(a), Some(b)) => a.chars() == b.chars() && a.is_below(&SELECTING),
        _ => false,
    }
}

/// Whether both times are given and less than the delay apart.
fn are_close(first: Option<i64>, second: Option<i64>, delay: i64) -> bool
    ensures { result ≡ are_close first second delay }
{
    match (first, second) {
        (Some(a), Some(b)) => is_within(b, a, delay) && is_within(a, b, delay),
        _ => false,
    }
}

/// The same effects once more.
#[inline(always)]
pub(crate) fn copied(
    alloc: Global,
    effects: &[KeptEffect],
) -> Result<Listed<KeptEffect>, AllocError>
    ensures { IfOk result (λ copies. copies ≡ effects.now) }
{
    let mut copies = Vec::with_capacity(alloc, effects.len())?;
    for effect in effects {
        copies.push(effect.try_copy(alloc)?)?;
    }
    Ok(Listed::new(copies))
}

/// The same event once more, if there is one.
pub(crate) fn copied_event(event: Option<&Str>) -> Result<Option<Str>, AllocError>
    ensures { IfOk result (λ copy. copy ≡ option_copied event.entry) }
{
    match event {
        None => Ok(None),
        Some(event) => Ok(Some(event.try_copy()?)),
    }
}
