ghost use Rattle.std.specs.Prelude.{IfOk, ℕ, IsTrue, [], cond, is_some, length, ◌↔◌, ◌∷◌, ◌≡◌};
ghost use Rattle.change_desc.specs.Sections.{old_size};
ghost use Rattle.history.specs.Histories.{IsHistory, LeadOn, empty, leads_from};
ghost use Rattle.history.specs.Joining.{closes_after, joins};
ghost use Rattle.history.specs.Steps.{IsStep, case_of, cut_to, in_case, is_newest};

use crate::case::Case;
use crate::cut::{keep_changes, keep_selects, kept_count};
use crate::group::Group;
use crate::isolation::Isolation;
use crate::items::Items;
use crate::step_input::StepInput;
use change_set::ChangeSet;
use std::alloc::{AllocError, Global};

/// What can be undone and what can be done again, each newest first, and whether the newest Change that can be undone is open
/// to further changes.
#[derive(Drop)]
pub struct Lists {
    pub done: Items,
    pub undone: Items,
    pub group: Group,
}

/// Whether these are exactly the changes of the newest Change.
fn is_newest(changes: &ChangeSet, items: &Items) -> bool
    ensures { result ≡ is_newest changes.now items.now }
{
    match items.newest_change() {
        None => false,
        Some(change) => changes.same(&change.changes),
    }
}

impl Lists {
    /// Neither.
    pub(crate) fn empty() -> Lists
        ensures { result ≡ empty }
    {
        Lists {
            done: Items::empty(),
            undone: Items::empty(),
            group: Group::Closed,
        }
    }

    /// Whether both lists lead from a document of `len` characters.
    pub(crate) fn leads_from(&self, len: u32) -> bool
        ensures { result ≡ leads_from len self.now }
    {
        self.done.leads(len) && self.undone.leads(len)
    }

    /// Whether both have the same items and their groups are as open.
    pub(crate) fn same(&self, other: &Lists) -> bool
        ensures { IsTrue result ↔ (self.now ≡ other.now) }
    {
        self.group == other.group && self.done.same(&other.done) && self.undone.same(&other.undone)
    }

    /// Which case a step is.
    pub(crate) fn case_of(&self, input: &StepInput) -> Case
        ensures { result ≡ case_of self.now input.now }
    {
        if input.is_from(0) && is_newest(&input.changes, &self.done) {
            Case::Undo
        } else if input.is_from(1) && is_newest(&input.changes, &self.undone) {
            Case::Redo
        } else if input.goes_over(2, self.done.begins_with_select()) {
            Case::UndoSelection
        } else if input.goes_over(3, self.undone.begins_with_select()) {
            Case::RedoSelection
        } else {
            input.own_case()
        }
    }

    /// The newest Changes that can be undone, so many of them as the depth says, and of each row of Selects the newest.
    pub(crate) fn cut(self, alloc: Global, depth: i64) -> Result<Lists, AllocError>
        ensures value { IfOk result (λ kept. kept ≡ cut_to depth self) }
        ensures history { IfOk result (λ kept. (len : ℕ) → LeadOn len self.done → LeadOn len self.undone → IsHistory kept) }
    {
        let kept = keep_changes(alloc, kept_count(depth), self.done)?;
        let done = keep_selects(alloc, kept)?;
        let undone = keep_selects(alloc, self.undone)?;
        let group = group_if(done.begins_with_change(), self.group);
        Ok(Lists {
            done,
            undone,
            group,
        })
    }
}

/// A group as open as it is, where it stays.
pub(crate) fn group_if(stays: bool, group: Group) -> Group
    ensures { result ≡ cond stays group Group.Closed }
{
    if stays { group } else { Group::Closed }
}
