ghost use Rattle.std.specs.Prelude.{IfOk, OnOk, [], ◌++◌, ◌∷◌, ◌≡◌};
ghost use Rattle.change_desc.specs.Sections.{new_size, old_size, spelled};
ghost use Rattle.selection.specs.Selections.{LieIn};
ghost use Rattle.history.specs.Histories.{LeadOn};
ghost use Rattle.history.specs.Moving.{is_idle, items_over, moved_select, newest_stays, put_kept};
ghost use Rattle.history.specs.PrivateMoved.{MovesTo, PutsMoved};

use crate::item::{ChangeItem, Item, SelectItem};
use crate::items::{Items, Tail, with_all};
use crate::shared_item::SharedItem;
use crate::step_input::copied_event;
use change_desc::Desc;
use kept_effects::moved_effects;
use line_tree::MAX_LEN;
use std::alloc::{AllocError, Global};

/// A Change over changes that are not recorded.
#[derive(Drop)]
pub(crate) struct Moved {
    pub(crate) item: ChangeItem,
    /// The changes in the document that the Change leads to.
    pub(crate) after: Desc,
}

/// The items over changes that are not recorded.
#[derive(Drop)]
pub(crate) struct MovedItems {
    pub(crate) items: Items,
    /// Whether the newest item is among them.
    pub(crate) newest_stays: bool,
}

impl ChangeItem {
    /// The Change over changes of its start document that are not recorded, with these changes as they stand after it, unless
    /// it would lead to a document that is too long.
    fn over(&self, alloc: Global, over: &Desc) -> Result<Option<Moved>, AllocError>
        requires starts { old_size self.now.changes ≡ old_size over.now }
        requires inside { LieIn (new_size spelled self.now.changes) self.now.selection.ranges }
        ensures { IfOk result (λ moved. MovesTo over.now self.now moved) }
    {
        let own = self.changes.desc()?;
        let len = own.mapped_len(over);
        if len > u64::from(MAX_LEN) {
            return Ok(None);
        }
        let changes = self.changes.map(over, false)?;
        let after = over.map(&own, true)?;
        let selection = self.selection.map(&after)?;
        let effects = moved_effects(alloc, self.effects.as_slice(), &after)?;
        Ok(Some(Moved {
            item: ChangeItem {
                changes,
                effects,
                selection,
            },
            after,
        }))
    }

    /// Whether no change and no effect is left.
    fn is_idle(&self) -> bool
        ensures { result ≡ is_idle self.now }
    {
        self.changes.is_empty() && self.effects.as_slice().is_empty()
    }
}

impl SelectItem {
    /// The Select over changes of its document that are not recorded.
    fn over(&self, over: &Desc) -> Result<SelectItem, AllocError>
        requires { LieIn (old_size over.now) self.now.selection.ranges }
        ensures { IfOk result (λ moved. moved ≡ moved_select over.now self.now) }
    {
        Ok(SelectItem {
            selection: self.selection.map(over)?,
            time: self.time,
            user_event: copied_event(self.user_event.as_ref())?,
        })
    }
}

/// Puts an item after others.
fn push(alloc: Global, items: &mut Vec<SharedItem>, item: Item) -> Result<(), AllocError>
    ensures { OnOk result (items.new.items ≡ items.old.items ++ item ∷ []) }
{
    let shared = SharedItem::new(alloc, item)?;
    items.push(shared)?;
    Ok(())
}

/// Puts a Change after others, unless nothing is left of it.
fn push_kept(
    alloc: Global,
    items: &mut Vec<SharedItem>,
    change: ChangeItem,
) -> Result<(), AllocError>
    ensures { OnOk result (items.new.items ≡ items.old.items ++ put_kept change []) }
{
    if change.is_idle() {
        return Ok(());
    }
    push(alloc, items, Item::Change(change))
}

/// Puts a moved item after others, and gives the changes as they stand after it, unless it would be too long.
fn push_moved(
    alloc: Global,
    items: &mut Vec<SharedItem>,
    item: &Item,
    over: Desc,
) -> Result<Option<Desc>, AllocError>
    requires { LeadOn (old_size over) (item.now ∷ []) }
    ensures { IfOk result (λ after. PutsMoved over item.now items.old.items items.new.items after) }
{
    match item {
        Item::Select(select) => {
            push(alloc, items, Item::Select(select.over(&over)?))?;
            Ok(Some(over))
        }
        Item::Change(change) => match change.over(alloc, &over)? {
            None => Ok(None),
            Some(moved) => {
                push_kept(alloc, items, moved.item)?;
                Ok(Some(moved.after))
            }
        },
    }
}

/// Puts moved items after others.
fn extend_moved(
    alloc: Global,
    to: &mut Vec<SharedItem>,
    items: Tail<'_>,
    over: Desc,
) -> Result<(), AllocError>
    requires { LeadOn (old_size over) items }
    ensures { OnOk result (to.new.items ≡ to.old.items ++ items_over over items.entry) }
{
    let mut after = over;
    let mut rest = items;
    while let Some((item, older)) = rest.split_first() {
        match push_moved(alloc, to, item.item(), after)? {
            None => return Ok(()),
            Some(next) => after = next,
        }
        rest = older;
    }
    Ok(())
}

/// The items over changes of their start document that are not recorded.
pub(crate) fn items_over(
    alloc: Global,
    items: &Items,
    over: &Desc,
) -> Result<MovedItems, AllocError>
    requires { LeadOn (old_size over.now) items.now }
    ensures items { IfOk result (λ moved. moved.items ≡ items_over over.now items.now) }
    ensures stays { IfOk result (λ moved. moved.newest_stays ≡ newest_stays over.now items.now) }
{
    let mut all = Vec::with_capacity(alloc, items.len())?;
    let Some((newest, others)) = items.split_first() else {
        return Ok(MovedItems {
            items: Items::empty(),
            newest_stays: false,
        });
    };
    match push_moved(alloc, &mut all, newest.item(), over.try_copy()?)? {
        None => Ok(MovedItems {
            items: Items::empty(),
            newest_stays: false,
        }),
        Some(after) => {
            let newest_stays = !all.as_slice().is_empty();
            extend_moved(alloc, &mut all, others, after)?;
            Ok(MovedItems {
                items: with_all(alloc, all, Items::empty())?,
                newest_stays,
            })
        }
    }
}
