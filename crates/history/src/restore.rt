ghost use Rattle.std.specs.Prelude.{IfOk, IsTrue, None, [], is_none, ◌↔◌, ◌≡◌};
ghost use Rattle.history.specs.Items.{newest_change};
ghost use Rattle.history.specs.Reading.{of_change, of_select, restored_change, restored_item};

use crate::item::{ChangeItem, Item, SelectItem};
use crate::items::Items;
use crate::step_input::copied;
use change_set::ChangeSet;
use cm_plain::KeptEffect;
use listed::Listed;
use selection::Selection;
use std::alloc::{AllocError, Global};

/// What an undo or a redo sends (Reference Manual, undo, redo, undoSelection, redoSelection).
#[derive(Drop)]
pub struct Restore {
    /// The changes of the document; none where a selection alone is restored.
    pub changes: Option<ChangeSet>,
    /// The effects to be sent with them. They refer to the document after the changes.
    pub effects: Listed<KeptEffect>,
    /// The selection to be set in the document after the changes.
    pub selection: Selection,
    /// What the annotation `fromHistory` says: 0 for an undo and 1 for a redo of changes, 2 for an undo and 3 for a redo of a
    /// selection alone.
    pub number: i64,
}

impl Restore {
    /// A Change, by the number of its undo or redo.
    fn of_change(alloc: Global, number: i64, change: &ChangeItem) -> Result<Restore, AllocError>
        ensures { IfOk result (λ restore. restore ≡ of_change number change.now) }
    {
        Ok(Restore {
            changes: Some(change.changes.try_copy()?),
            effects: copied(alloc, change.effects.as_slice())?,
            selection: change.selection.try_copy()?,
            number,
        })
    }

    /// A Select, by the number of its undo or redo.
    fn of_select(alloc: Global, number: i64, select: &SelectItem) -> Result<Restore, AllocError>
        ensures { IfOk result (λ restore. restore ≡ of_select number select.now) }
    {
        Ok(Restore {
            changes: None,
            effects: Listed::empty(alloc),
            selection: select.selection.try_copy()?,
            number,
        })
    }
}

/// The newest Change, by the number of its undo or redo, if there is one.
pub(crate) fn restored_change(
    alloc: Global,
    number: i64,
    items: &Items,
) -> Result<Option<Restore>, AllocError>
    ensures value { IfOk result (λ restore. restore ≡ restored_change number items.now) }
    ensures none { IfOk result (λ restore. IsTrue (is_none restore) ↔ (newest_change items.now ≡ None)) }
{
    match items.newest_change() {
        None => Ok(None),
        Some(change) => Ok(Some(Restore::of_change(alloc, number, change)?)),
    }
}

/// The newest item, by the number of its undo or redo, if there is one.
pub(crate) fn restored_item(
    alloc: Global,
    change_number: i64,
    select_number: i64,
    items: &Items,
) -> Result<Option<Restore>, AllocError>
    ensures value { IfOk result (λ restore. restore ≡ restored_item change_number select_number items.now) }
    ensures none { IfOk result (λ restore. IsTrue (is_none restore) ↔ (items.now ≡ [])) }
{
    match items.first() {
        None => Ok(None),
        Some(item) => match item {
            Item::Change(change) => { Ok(Some(Restore::of_change(alloc, change_number, change)?)) }
            Item::Select(select) => { Ok(Some(Restore::of_select(alloc, select_number, select)?)) }
        },
    }
}
