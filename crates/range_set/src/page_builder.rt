ghost use Rattle.std.specs.Prelude.{IfOk, [], ◌++◌, ◌+◌, ◌∷◌, ◌≡◌, ◌≤◌, ◌<◌, ◌^◌, length, map};
ghost use Rattle.range_set.specs.PrivateChunks.{IsGroup, flat, group_content, spread};
ghost use Rattle.range_set.specs.PrivatePages.{AreGrowing, ArePages, IsPage, further, laid};

use crate::group::PlacedGroup;
use crate::group_list::GroupList;
use crate::page::{MORE_GROUPS, Page, PlacedPage};
use crate::parts::{joined_of, trim};
use crate::range_value::RangeValue;
use std::alloc::{AllocError, Global};
use std::marker::Model;
use std::mem;
use std::rc::Rc;

/// Cuts groups that come in order into pages: those that are done, and the groups of one that is growing, which is to stand at `start`.
/// Contracts see the groups.
#[derive(Drop)]
pub(crate) struct PageBuilder<T: RangeValue> {
    done: Vec<PlacedPage<T>>,
    start: u32,
    growing: Vec<PlacedGroup<T>>,
    /// How many groups make a page full. It only decides where pages are cut.
    full: usize,
    /// For how many groups a page that is begun has room at first.
    room: usize,
}

impl<T: RangeValue> Model for PageBuilder<T> {
    ghost use Rattle.std.specs.Prelude.{List, ◌++◌};
    ghost use Rattle.range_set.specs.declared.group.PlacedGroup.{PlacedGroup};
    ghost use Rattle.range_set.specs.PrivatePages.{ArePagesBuilt, laid};

    ghost Value = { List (PlacedGroup T) };

    ghost view = { λ s. laid s.done.items ++ s.growing.items };

    ghost invariant = { λ s. ArePagesBuilt T.rules s.done.items s.start s.growing.items };
}

impl<T: RangeValue> PageBuilder<T> {
    /// A builder without groups, with room for so many pages of about so many groups, of which `full` make a page full. `Err`: out of
    /// memory.
    pub(crate) fn with_capacity(
        alloc: Global,
        pages: usize,
        groups: usize,
        full: usize,
    ) -> Result<PageBuilder<T>, AllocError>
        ensures { IfOk result (λ builder. builder ≡ []) }
    {
        Ok(PageBuilder {
            done: Vec::with_capacity(alloc, pages)?,
            start: 0,
            growing: Vec::new(alloc),
            full,
            room: groups.saturating_add(MORE_GROUPS).min(full),
        })
    }

    /// Puts a group after the others. `Err`: out of memory.
    pub(crate) fn push(&mut self, placed: PlacedGroup<T>) -> Result<(), AllocError>
        requires group { IsGroup T.rules placed.start (group_content placed) }
        requires some { 1 ≤ length (flat (group_content placed).chunks) }
        requires room { length (flat (spread self.old)) + length (flat (group_content placed).chunks) < 2 ^ 64 }
        ensures { IfOk result (λ _. self.new ≡ self.old ++ placed ∷ []) }
    {
        // Groups come in order, so none begins before the growing page: this is asked so that no contract needs to say it.
        if !self.growing.is_empty()
            && (self.growing.len() >= self.full || placed.start < self.start)
        {
            seal(&mut self.done, self.start, &mut self.growing)?;
        }
        if self.growing.is_empty() {
            self.growing.reserve_exact(self.room)?;
            self.start = placed.start;
        }
        grow(&mut self.growing, self.start, placed)
    }

    /// Does what `push` does, and is short where no page begins and the list of the growing one has room: for loops over many groups.
    /// `Err`: out of memory.
    pub(crate) fn push_quick(&mut self, placed: PlacedGroup<T>) -> Result<(), AllocError>
        requires group { IsGroup T.rules placed.start (group_content placed) }
        requires some { 1 ≤ length (flat (group_content placed).chunks) }
        requires room { length (flat (spread self.old)) + length (flat (group_content placed).chunks) < 2 ^ 64 }
        ensures { IfOk result (λ _. self.new ≡ self.old ++ placed ∷ []) }
    {
        let len = self.growing.len();
        if len == 0
            || len >= self.full
            || len >= self.growing.capacity()
            || placed.start < self.start
        {
            return self.push(placed);
        }
        self.growing.push_reserved(placed);
        Ok(())
    }

    /// Whether a page of so many groups is to become one with the groups that are growing: whether there are any, and all of them
    /// fill at most three quarters of a full page. No contract speaks of this: it only decides which pages are shared.
    pub(crate) fn joins(&self, len: usize) -> bool {
        !self.growing.is_empty() && self.growing.len().saturating_add(len) <= joined_of(self.full)
    }

    /// Puts the groups of a page after the others, at a place of its own, and shares it. `Err`: out of memory.
    #[inline(always)]
    pub(crate) fn share(&mut self, start: u32, page: &Rc<Page<T>>) -> Result<(), AllocError>
        requires page { IsPage T.rules start page.now.value }
        requires some { 1 ≤ length (flat (spread page.now.value.groups.items)) }
        ensures { IfOk result (λ _. self.new ≡ self.old ++ map (further start) page.now.value.groups.items) }
    {
        seal(&mut self.done, self.start, &mut self.growing)?;
        self.done.push(PlacedPage {
            start,
            page: page.clone()?,
        })?;
        Ok(())
    }

    /// The list of the groups. `Err`: out of memory.
    pub(crate) fn finish(mut self) -> Result<GroupList<T>, AllocError>
        ensures { IfOk result (λ list. list ≡ self) }
    {
        seal(&mut self.done, self.start, &mut self.growing)?;
        GroupList::of(self.done)
    }
}

/// Puts a group after those that grow at the place `start`: a function of its own, since what must be proved of this is long. `Err`: out
/// of memory.
fn grow<T: RangeValue>(
    growing: &mut Vec<PlacedGroup<T>>,
    start: u32,
    placed: PlacedGroup<T>,
) -> Result<(), AllocError>
    requires growing { AreGrowing T.rules start growing.old.items }
    requires group { IsGroup T.rules placed.start (group_content placed) }
    requires some { 1 ≤ length (flat (group_content placed).chunks) }
    requires room { length (flat (spread growing.old.items)) + length (flat (group_content placed).chunks) < 2 ^ 64 }
    requires after { start ≤ placed.start }
    requires first { growing.old.items ≡ [] → placed.start ≡ start }
    ensures growing { AreGrowing T.rules start growing.new.items }
    ensures groups { IfOk result (λ _. growing.new.items ≡ growing.old.items ++ placed ∷ []) }
{
    growing.push(placed)?;
    Ok(())
}

/// Makes a page of the groups that grow at the place `start`, if there are any, and begins a list without groups. `Err`: out of
/// memory.
#[inline(always)]
fn seal<T: RangeValue>(
    done: &mut Vec<PlacedPage<T>>,
    start: u32,
    growing: &mut Vec<PlacedGroup<T>>,
) -> Result<(), AllocError>
    requires pages { ArePages T.rules done.old.items }
    requires growing { AreGrowing T.rules start growing.old.items }
    ensures pages { ArePages T.rules done.new.items }
    ensures groups { IfOk result (λ _. laid done.new.items ≡ laid done.old.items ++ growing.old.items) }
    ensures growing { AreGrowing T.rules start growing.new.items }
    ensures empty { IfOk result (λ _. growing.new.items ≡ []) }
{
    if growing.is_empty() {
        return Ok(());
    }
    seal_some(done, start, growing)
}

/// Makes a page of the groups that grow at the place `start`, of which there are some, and begins a list without groups. `Err`: out
/// of memory.
#[inline(never)]
fn seal_some<T: RangeValue>(
    done: &mut Vec<PlacedPage<T>>,
    start: u32,
    growing: &mut Vec<PlacedGroup<T>>,
) -> Result<(), AllocError>
    requires pages { ArePages T.rules done.old.items }
    requires growing { AreGrowing T.rules start growing.old.items }
    requires some { 1 ≤ length growing.old.items }
    ensures pages { ArePages T.rules done.new.items }
    ensures groups { IfOk result (λ _. laid done.new.items ≡ laid done.old.items ++ growing.old.items) }
    ensures growing { AreGrowing T.rules start growing.new.items }
    ensures empty { IfOk result (λ _. growing.new.items ≡ []) }
{
    let alloc = *done.allocator();
    let mut groups = mem::replace(growing, Vec::new(alloc));
    trim(&mut groups);
    done.push(PlacedPage {
        start,
        page: Rc::new(alloc, Page::of(start, groups))?,
    })?;
    Ok(())
}
