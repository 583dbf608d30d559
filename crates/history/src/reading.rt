// What is read of a list of items.
ghost use Rattle.std.specs.Prelude.{IfOk, IsTrue, MatchOption, [], drop, option_copied, ◌∷◌, ◌≡◌, ◌↔◌};
ghost use Rattle.history.specs.Histories.{leads};
ghost use Rattle.history.specs.Items.{begins_with_change, begins_with_select, newest_change, older};
ghost use Rattle.history.specs.Joining.{first_change};
ghost use Rattle.history.specs.Selecting.{first_select};

use crate::item::{ChangeItem, Item, SelectItem};
use crate::items::Items;
use crate::shared_item::SharedItem;
use selection::first_outside;
use std::alloc::{AllocError, Global};

impl Items {
    /// An item before others, which are shared. `Err`: out of memory.
    #[inline(always)]
    pub(crate) fn with_first(&self, alloc: Global, item: Item) -> Result<Items, AllocError>
        ensures { IfOk result (λ all. all ≡ item ∷ self.now) }
    {
        let shared = SharedItem::new(alloc, item)?;
        self.share()?.with_shared(alloc, shared)
    }

    /// The newest item, if there is one.
    pub(crate) fn first(&self) -> Option<&Item>
        ensures { MatchOption result (self.now ≡ []) (λ item. self.now ≡ item.now ∷ drop 1 self.now) }
    {
        match self.split_first() {
            None => None,
            Some((item, _)) => Some(item.item()),
        }
    }

    /// The newest item, if it is a Change.
    pub(crate) fn first_change(&self) -> Option<&ChangeItem>
        ensures { option_copied result ≡ first_change self.now }
    {
        match self.first() {
            None => None,
            Some(item) => item.as_change(),
        }
    }

    /// The newest item, if it is a Select.
    pub(crate) fn first_select(&self) -> Option<&SelectItem>
        ensures { option_copied result ≡ first_select self.now }
    {
        match self.first() {
            None => None,
            Some(item) => item.as_select(),
        }
    }

    /// All but the newest. `Err`: no further owner can be counted.
    pub(crate) fn without_first(&self) -> Result<Items, AllocError>
        ensures { IfOk result (λ others. others ≡ drop 1 self.now) }
    {
        match self.split_first() {
            None => Ok(Items::empty()),
            Some((_, older)) => older.share(),
        }
    }

    /// The newest Change, if there is one.
    pub(crate) fn newest_change(&self) -> Option<&ChangeItem>
        ensures { option_copied result ≡ newest_change self.now }
    {
        let mut rest = self.tail();
        while let Some((item, older)) = rest.split_first() {
            if let Some(change) = item.item().as_change() {
                return Some(change);
            }
            rest = older;
        }
        None
    }

    /// The items older than the newest Change. `Err`: no further owner can be counted.
    pub(crate) fn older(&self) -> Result<Items, AllocError>
        ensures { IfOk result (λ items. items ≡ older self.now) }
    {
        let mut rest = self.tail();
        while let Some((item, older)) = rest.split_first() {
            if item.item().is_change() {
                return older.share();
            }
            rest = older;
        }
        Ok(Items::empty())
    }

    /// Whether the newest item is a Change.
    pub(crate) fn begins_with_change(&self) -> bool
        ensures { result ≡ begins_with_change self.now }
    {
        match self.first() {
            None => false,
            Some(item) => item.is_change(),
        }
    }

    /// Whether the newest item is a Select.
    pub(crate) fn begins_with_select(&self) -> bool
        ensures { result ≡ begins_with_select self.now }
    {
        match self.first() {
            None => false,
            Some(item) => !item.is_change(),
        }
    }

    /// Whether the newest Change, if there is one, starts in a document of `len` characters, in which each newer Select lies.
    #[inline(always)]
    pub(crate) fn leads(&self, len: u32) -> bool
        ensures { result ≡ leads len self.now }
    {
        let mut rest = self.tail();
        while let Some((item, older)) = rest.split_first() {
            match item.item() {
                Item::Change(change) => return change.changes.len() == len,
                Item::Select(select) => {
                    if first_outside(select.selection.ranges(), len).is_some() {
                        return false;
                    }
                }
            }
            rest = older;
        }
        true
    }

    /// Whether both are the same items, in the same order.
    pub(crate) fn same(&self, other: &Items) -> bool
        ensures { IsTrue result ↔ (self.now ≡ other.now) }
    {
        let mut left = self.tail();
        let mut right = other.tail();
        while let Some((a, older)) = left.split_first() {
            let Some((b, others)) = right.split_first() else {
                return false;
            };
            if !a.item().same(b.item()) {
                return false;
            }
            left = older;
            right = others;
        }
        right.split_first().is_none()
    }
}
