ghost use Rattle.std.specs.Prelude.{IsTrue, cond, option_copied, ◌↔◌, ◌≡◌};
ghost use Rattle.history.specs.Items.{is_change};
ghost use Rattle.history.specs.PrivateItems.{change_of, select_of};

use change_set::ChangeSet;
use cm_plain::{KeptEffect, Str};
use listed::Listed;
use selection::Selection;

/// Changes that can be undone or done again (Reference Manual, history).
#[derive(Drop)]
pub struct ChangeItem {
    /// The changes of the document.
    pub changes: ChangeSet,
    /// The effects to be sent with them. They refer to the document after the changes.
    pub effects: Listed<KeptEffect>,
    /// The selection to restore, in the document after the changes.
    pub selection: Selection,
}

/// A selection that can be gone back to (Reference Manual, undoSelection).
#[derive(Drop)]
pub struct SelectItem {
    pub selection: Selection,
    /// When it was left, in milliseconds, if that is known.
    pub time: Option<i64>,
    /// The user event that left it.
    pub user_event: Option<Str>,
}

/// What can be undone or done again.
#[derive(Drop)]
pub enum Item {
    /// Changes, with their effects and a selection.
    Change(ChangeItem),
    /// A selection alone.
    Select(SelectItem),
}

impl Item {
    /// Its changes, if it has some.
    pub(crate) fn as_change(&self) -> Option<&ChangeItem>
        ensures { option_copied result ≡ change_of self.now }
    {
        match self {
            Item::Change(change) => Some(change),
            Item::Select(_) => None,
        }
    }

    /// It as a Select, if it is one.
    pub(crate) fn as_select(&self) -> Option<&SelectItem>
        ensures { option_copied result ≡ select_of self.now }
    {
        match self {
            Item::Change(_) => None,
            Item::Select(select) => Some(select),
        }
    }

    /// Whether it has changes.
    pub(crate) fn is_change(&self) -> bool
        ensures { result ≡ is_change self.now }
    {
        match self {
            Item::Change(_) => true,
            Item::Select(_) => false,
        }
    }

    /// How many Changes it is: one or none.
    pub(crate) fn change_count(&self) -> usize
        ensures { result ≡ cond (is_change self.now) 1 0 }
    {
        match self {
            Item::Change(_) => 1,
            Item::Select(_) => 0,
        }
    }

    /// Whether both are the same.
    pub(crate) fn same(&self, other: &Item) -> bool
        ensures { IsTrue result ↔ (self.now ≡ other.now) }
    {
        match (self, other) {
            (Item::Change(a), Item::Change(b)) => a.same(b),
            (Item::Select(a), Item::Select(b)) => a.same(b),
            _ => false,
        }
    }
}

impl ChangeItem {
    /// Whether both have the same changes, effects and selection.
    fn same(&self, other: &ChangeItem) -> bool
        ensures { IsTrue result ↔ (self.now ≡ other.now) }
    {
        self.changes.same(&other.changes)
            && self.selection.same(&other.selection)
            && same_effects(self.effects.as_slice(), other.effects.as_slice())
    }
}

impl SelectItem {
    /// Whether both have the same selection, time and user event.
    fn same(&self, other: &SelectItem) -> bool
        ensures { IsTrue result ↔ (self.now ≡ other.now) }
    {
        self.time == other.time
            && self.selection.same(&other.selection)
            && same_event(&self.user_event, &other.user_event)
    }
}

/// Whether both are the same event, or none.
fn same_event(left: &Option<Str>, right: &Option<Str>) -> bool
    ensures { IsTrue result ↔ (left.now ≡ right.now) }
{
    match (left, right) {
        (None, None) => true,
        (Some(a), Some(b)) => a.same(b),
        _ => false,
    }
}

/// Whether both are the same effects, in the same order.
fn same_effects(left: &[KeptEffect], right: &[KeptEffect]) -> bool
    ensures { IsTrue result ↔ (left.now ≡ right.now) }
{
    if left.len() != right.len() {
        return false;
    }
    for (a, b) in left.iter().zip(right) {
        if !a.same(b) {
            return false;
        }
    }
    true
}
