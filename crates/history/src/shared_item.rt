ghost use Rattle.std.specs.Prelude.{IfOk, ◌≡◌};

use crate::item::Item;
use std::alloc::{AllocError, Global};
use std::marker::Model;
use std::rc::Rc;

/// An item that histories share. Contracts see it as the item.
#[derive(Drop)]
pub struct SharedItem {
    item: Rc<Item>,
}

impl Model for SharedItem {
    ghost use Rattle.history.specs.declared.item.Item.{Item};
    ghost use Rattle.std.specs.Coded.{codes};
    ghost use Rattle.cm_plain.specs.Datum.{coded_datum};

    ghost Value = { Item };

    ghost coded = { Prim.hlevel (codes, coded_datum) };

    ghost view = { λ s. s.item.value };
}

impl SharedItem {
    /// This item, to be shared. `Err`: out of memory.
    #[inline(always)]
    pub(crate) fn new(alloc: Global, item: Item) -> Result<SharedItem, AllocError>
        ensures { IfOk result (λ shared. shared ≡ item) }
    {
        match Rc::new(alloc, item) {
            Ok(item) => Ok(SharedItem { item }),
            Err(_) => Err(AllocError),
        }
    }

    /// The item.
    pub(crate) fn item(&self) -> &Item
        ensures { result.now ≡ self.now }
    {
        &self.item
    }

    /// The same item once more, without a copy of it. `Err`: no further owner can be counted.
    pub(crate) fn share(&self) -> Result<SharedItem, AllocError>
        ensures { IfOk result (λ shared. shared ≡ self.now) }
    {
        let item = self.item.clone()?;
        Ok(SharedItem { item })
    }
}
