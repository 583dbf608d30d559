ghost use Rattle.std.specs.Prelude.{IfOk, [], ◌≡◌};
ghost use Rattle.range_set.specs.PrivatePages.{ArePages, laid};

use crate::group_cursor::GroupCursor;
use crate::page::PlacedPage;
use crate::range_value::RangeValue;
use std::alloc::{AllocError, Global};
use std::marker::Model;
use std::rc::Rc;

/// A list of pages of groups, which sets share: a copy of the list counts one more owner of it. Contracts see the groups. None stands
/// for the list without groups, which takes no memory.
#[derive(Drop)]
pub(crate) struct GroupList<T: RangeValue> {
    alloc: Global,
    pages: Option<Rc<Vec<PlacedPage<T>>>>,
}

impl<T: RangeValue> Model for GroupList<T> {
    ghost use Rattle.std.specs.Prelude.{List, [], option_map, unwrap_or};
    ghost use Rattle.range_set.specs.declared.group.PlacedGroup.{PlacedGroup};
    ghost use Rattle.range_set.specs.PrivatePages.{ArePages, laid};

    ghost Value = { List (PlacedGroup T) };

    ghost view = { λ s. laid (unwrap_or (option_map (λ pages. pages.value.items) s.pages) []) };

    ghost invariant = { λ s. ArePages T.rules (unwrap_or (option_map (λ pages. pages.value.items) s.pages) []) };
}

impl<T: RangeValue> GroupList<T> {
    /// The list without groups.
    pub(crate) fn empty(alloc: Global) -> GroupList<T>
        ensures { result ≡ [] }
    {
        GroupList { alloc, pages: None }
    }

    /// The list of the groups of these pages. `Err`: out of memory.
    pub(crate) fn of(pages: Vec<PlacedPage<T>>) -> Result<GroupList<T>, AllocError>
        requires { ArePages T.rules pages.items }
        ensures { IfOk result (λ list. list ≡ laid pages.items) }
    {
        let alloc = *pages.allocator();
        if pages.is_empty() {
            return Ok(GroupList::empty(alloc));
        }
        let pages = Rc::new(alloc, pages)?;
        Ok(GroupList {
            alloc,
            pages: Some(pages),
        })
    }

    /// The pages.
    pub(crate) fn pages(&self) -> &[PlacedPage<T>]
        ensures groups { laid result.now ≡ self.now }
        ensures pages { ArePages T.rules result.now }
    {
        match &self.pages {
            Some(pages) => pages.as_slice(),
            None => &[],
        }
    }

    /// The place before all groups.
    pub(crate) fn groups(&self) -> GroupCursor<'_, T>
        ensures { result ≡ self.now }
    {
        GroupCursor::over(self.pages())
    }

    /// What sets of these groups take memory from.
    pub(crate) fn alloc(&self) -> Global {
        self.alloc
    }

    /// The same list once more, without a copy of its pages. `Err`: no further owner can be counted.
    pub(crate) fn share(&self) -> Result<GroupList<T>, AllocError>
        ensures { IfOk result (λ list. list ≡ self.now) }
    {
        let pages = match &self.pages {
            Some(pages) => Some(pages.clone()?),
            None => None,
        };
        Ok(GroupList {
            alloc: self.alloc,
            pages,
        })
    }
}
