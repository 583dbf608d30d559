ghost use Rattle.std.specs.Prelude.{IfOk, [], ◌++◌, ◌+◌, ◌≡◌, ◌≤◌, ◌<◌, ◌^◌, length, map};
ghost use Rattle.change_desc.specs.Meeting.{BeginAfter, EndsAtOrAfter};
ghost use Rattle.range_set.specs.PrivateChunks.{FitCarried, AreChunks, AreGroups, AreGroupsOf, AreShared, Ascend, IsGroup, flat, group_content, move, spread};
ghost use Rattle.range_set.specs.PrivateBuilders.{IsGroupBuilder, grouped};
ghost use Rattle.range_set.specs.PrivatePages.{IsPage, further};
ghost use Rattle.range_set.specs.PrivateUpdates.{AreSharedBefore};

use crate::chunk::Placed;
use crate::group::{PlacedGroup, few_of, full_among, full_for, is_far};
use crate::group_cursor::GroupCursor;
use crate::group_list::GroupList;
use crate::page::{Page, full_page_among, full_page_for};
use crate::page_builder::PageBuilder;
use crate::parts::{part_len, trim};
use crate::range_value::RangeValue;
use change_desc::{ChangedRange, first_meets};
use std::alloc::{AllocError, Global};
use std::rc::Rc;

/// Groups that come in order, to which more are put, and how many ranges they have.
#[derive(Drop)]
pub(crate) struct GroupBuilder<T: RangeValue> {
    pub(crate) done: PageBuilder<T>,
    pub(crate) len: usize,
    /// How many chunks make a group full: 16 to 32, where contracts ask for 1 to 64. It only decides where groups are cut.
    pub(crate) full: usize,
}

impl<T: RangeValue> GroupBuilder<T> {
    /// A builder without ranges for what becomes of a set of so many pages, of which the first has so many groups. It has room for
    /// these pages and one more. `Err`: out of memory.
    #[inline(always)]
    pub(crate) fn for_pages(
        alloc: Global,
        pages: usize,
        groups: usize,
    ) -> Result<GroupBuilder<T>, AllocError>
        ensures builder { IfOk result (IsGroupBuilder T.rules) }
        ensures ranges { IfOk result (λ builder. grouped builder ≡ []) }
    {
        Ok(GroupBuilder {
            done: PageBuilder::with_capacity(
                alloc,
                pages.saturating_add(1),
                groups,
                full_page_among(pages),
            )?,
            len: 0,
            full: full_among(pages),
        })
    }

    /// A builder without ranges for a set of so many chunks. `Err`: out of memory.
    pub(crate) fn for_chunks(alloc: Global, chunks: usize) -> Result<GroupBuilder<T>, AllocError>
        ensures builder { IfOk result (IsGroupBuilder T.rules) }
        ensures ranges { IfOk result (λ builder. grouped builder ≡ []) }
    {
        let full = full_for(chunks);
        let groups = chunks / full;
        Ok(GroupBuilder {
            done: PageBuilder::with_capacity(alloc, 0, groups, full_page_for(groups))?,
            len: 0,
            full,
        })
    }

    /// Cuts chunks that come in order into groups, and puts these after the others. `Err`: out of memory.
    pub(crate) fn put_all(&mut self, mut chunks: Vec<Placed<T>>) -> Result<(), AllocError>
        requires builder { IsGroupBuilder T.rules self.old }
        requires chunks { AreChunks T.rules chunks.items }
        requires room { length (flat (grouped self.old)) + length (flat chunks.items) < 2 ^ 64 }
        requires order { Ascend 0 (flat (grouped self.old ++ chunks.items)) }
        ensures builder { IfOk result (λ _. IsGroupBuilder T.rules self.new) }
        ensures ranges { IfOk result (λ _. grouped self.new ≡ grouped self.old ++ chunks.items) }
    {
        let part = group_len(&chunks, self.full);
        if part < chunks.len() {
            let rest = chunks.split_off(part)?;
            self.put_all(chunks)?;
            return self.put_all(rest);
        }
        self.put_group(chunks)
    }

    /// Puts chunks in order after the others, as one group. It keeps their list. `Err`: out of memory.
    fn put_group(&mut self, mut chunks: Vec<Placed<T>>) -> Result<(), AllocError>
        requires builder { IsGroupBuilder T.rules self.old }
        requires few { length chunks.items ≤ 64 }
        requires chunks { AreChunks T.rules chunks.items }
        requires room { length (flat (grouped self.old)) + length (flat chunks.items) < 2 ^ 64 }
        requires order { Ascend 0 (flat chunks.items) }
        ensures builder { IfOk result (λ _. IsGroupBuilder T.rules self.new) }
        ensures ranges { IfOk result (λ _. grouped self.new ≡ grouped self.old ++ chunks.items) }
    {
        let Some(first) = chunks.first() else {
            return Ok(());
        };
        let start = first.start;
        trim(&mut chunks);
        let placed = PlacedGroup::of(start, chunks)?;
        let count = placed.group.count;
        self.done.push(placed)?;
        self.len += count;
        Ok(())
    }

    /// Puts a group after the ranges. `Err`: out of memory.
    pub(crate) fn put(&mut self, placed: PlacedGroup<T>) -> Result<(), AllocError>
        requires builder { IsGroupBuilder T.rules self.old }
        requires group { IsGroup T.rules placed.start (group_content placed) }
        requires some { 1 ≤ length (flat (group_content placed).chunks) }
        requires room { length (flat (grouped self.old)) + length (flat (group_content placed).chunks) < 2 ^ 64 }
        ensures builder { IfOk result (λ _. IsGroupBuilder T.rules self.new) }
        ensures ranges { IfOk result (λ _. grouped self.new ≡ grouped self.old ++ map (move placed.start) (group_content placed).chunks) }
    {
        let count = placed.group.count;
        self.done.push_quick(placed)?;
        self.len += count;
        Ok(())
    }

    /// Puts a group after the ranges, at a place of its own, and shares it. `Err`: out of memory.
    #[inline(always)]
    pub(crate) fn share(&mut self, start: u32, placed: &PlacedGroup<T>) -> Result<(), AllocError>
        requires builder { IsGroupBuilder T.rules self.old }
        requires group { IsGroup T.rules start (group_content placed.now) }
        requires some { 1 ≤ length (flat (group_content placed.now).chunks) }
        requires room { length (flat (grouped self.old)) + length (flat (group_content placed.now).chunks) < 2 ^ 64 }
        ensures builder { IfOk result (λ _. IsGroupBuilder T.rules self.new) }
        ensures ranges { IfOk result (λ _. grouped self.new ≡ grouped self.old ++ map (move start) (group_content placed.now).chunks) }
    {
        let count = placed.group.count;
        self.done.push_quick(placed.at(start)?)?;
        self.len += count;
        Ok(())
    }

    /// Puts the groups of a page after the others, the page at a place of its own, and shares it. `Err`: out of memory.
    #[inline(always)]
    fn put_page(&mut self, start: u32, page: &Rc<Page<T>>) -> Result<(), AllocError>
        requires builder { IsGroupBuilder T.rules self.old }
        requires page { IsPage T.rules start page.now.value }
        requires some { 1 ≤ length (flat (spread page.now.value.groups.items)) }
        requires room { length (flat (grouped self.old)) + length (flat (spread page.now.value.groups.items)) < 2 ^ 64 }
        ensures builder { IfOk result (λ _. IsGroupBuilder T.rules self.new) }
        ensures ranges { IfOk result (λ _. grouped self.new ≡ grouped self.old ++ spread (map (further start) page.now.value.groups.items)) }
    {
        let count = page.count;
        self.done.share(start, page)?;
        self.len += count;
        Ok(())
    }

    /// Shares the first groups after the ranges, each moved as far as the place `from` is where it goes to `to`, and gives the place
    /// before the others: from the first on that ends at or after the start of a replaced range, or in which an empty range has an end
    /// side less than its start side. Pages are shared as a whole, unless they become one with groups before them. `changed` are the
    /// replaced ranges from the first on that doesn't end before `from`. `Err`: out of memory.
    #[inline(always)]
    pub(crate) fn share_carried<'a>(
        &mut self,
        groups: GroupCursor<'a, T>,
        from: u32,
        to: u32,
        changed: &[ChangedRange],
    ) -> Result<GroupCursor<'a, T>, AllocError>
        requires builder { IsGroupBuilder T.rules self.old }
        requires ascend { Ascend from (flat (spread groups)) }
        requires fits { FitCarried from to changed.now groups }
        requires order { BeginAfter 0 changed.now }
        requires first { EndsAtOrAfter from changed.now }
        requires room { length (flat (grouped self.old)) + length (flat (spread groups)) < 2 ^ 64 }
        ensures builder { IfOk result (λ _. IsGroupBuilder T.rules self.new) }
        ensures shared { IfOk result (λ rest. AreShared from to changed.now groups.entry rest (flat (grouped self.old)) (flat (grouped self.new))) }
    {
        let mut rest = self.share_carried_pages(groups, from, to, changed)?;
        while let Some((base, opened, pages)) = rest.split_groups() {
            let left = self.share_carried_groups(opened, base, from, to, changed)?;
            if !left.is_empty() {
                return Ok(GroupCursor::at(base, left, pages));
            }
            rest = self.share_carried_pages(GroupCursor::over(pages), from, to, changed)?;
        }
        Ok(rest)
    }

    /// Shares the first groups as `share_carried` does, of groups of a page, which count from the place `base`, one by one, and gives the
    /// others. `Err`: out of memory.
    fn share_carried_groups<'a>(
        &mut self,
        groups: &'a [PlacedGroup<T>],
        base: u32,
        from: u32,
        to: u32,
        changed: &[ChangedRange],
    ) -> Result<&'a [PlacedGroup<T>], AllocError>
        requires builder { IsGroupBuilder T.rules self.old }
        requires groups { AreGroups T.rules (map (further base) groups.now) }
        requires ascend { Ascend from (flat (spread (map (further base) groups.now))) }
        requires fits { FitCarried from to changed.now (map (further base) groups.now) }
        requires order { BeginAfter 0 changed.now }
        requires first { EndsAtOrAfter from changed.now }
        requires room { length (flat (grouped self.old)) + length (flat (spread (map (further base) groups.now))) < 2 ^ 64 }
        ensures builder { IfOk result (λ _. IsGroupBuilder T.rules self.new) }
        ensures shared { IfOk result (λ rest. AreShared from to changed.now (map (further base) groups.now) (map (further base) rest.now) (flat (grouped self.old)) (flat (grouped self.new))) }
    {
        let mut rest = groups;
        while let Some((placed, others)) = rest.split_first() {
            let start = placed.start + base;
            let end = start + placed.reach();
            if placed.group.is_turned || first_meets(changed, from, end) {
                return Ok(rest);
            }
            self.share(start - from + to, placed)?;
            rest = others;
        }
        Ok(rest)
    }

    /// Shares the first groups as `share_carried` does, but as pages alone: from the place where a page begins up to the first that
    /// becomes one with groups before it, that ends at or after the start of a replaced range, or in which an empty range has an end
    /// side less than its start side. `Err`: out of memory.
    #[inline(always)]
    fn share_carried_pages<'a>(
        &mut self,
        groups: GroupCursor<'a, T>,
        from: u32,
        to: u32,
        changed: &[ChangedRange],
    ) -> Result<GroupCursor<'a, T>, AllocError>
        requires builder { IsGroupBuilder T.rules self.old }
        requires ascend { Ascend from (flat (spread groups)) }
        requires fits { FitCarried from to changed.now groups }
        requires order { BeginAfter 0 changed.now }
        requires first { EndsAtOrAfter from changed.now }
        requires room { length (flat (grouped self.old)) + length (flat (spread groups)) < 2 ^ 64 }
        ensures builder { IfOk result (λ _. IsGroupBuilder T.rules self.new) }
        ensures shared { IfOk result (λ rest. AreShared from to changed.now groups.entry rest (flat (grouped self.old)) (flat (grouped self.new))) }
    {
        let mut rest = groups;
        while let Some((placed, others)) = rest.split_page() {
            let page = &placed.page;
            let end = placed.start + page.reach;
            if self.done.joins(page.groups.len())
                || page.is_turned
                || first_meets(changed, from, end)
            {
                return Ok(rest);
            }
            self.put_page(placed.start - from + to, page)?;
            rest = others;
        }
        Ok(rest)
    }

    /// Shares the first groups after the ranges, each at its place, as long as another group follows that begins before a place, and
    /// gives the place before the others. `Err`: out of memory.
    pub(crate) fn share_before<'a>(
        &mut self,
        groups: GroupCursor<'a, T>,
        place: u32,
    ) -> Result<GroupCursor<'a, T>, AllocError>
        requires builder { IsGroupBuilder T.rules self.old }
        requires ascend { Ascend 0 (flat (spread groups)) }
        requires room { length (flat (grouped self.old)) + length (flat (spread groups)) < 2 ^ 64 }
        ensures builder { IfOk result (λ _. IsGroupBuilder T.rules self.new) }
        ensures shared { IfOk result (λ rest. AreSharedBefore place groups.entry rest (grouped self.old) (grouped self.new)) }
    {
        let mut rest = groups;
        loop {
            if let Some((placed, others)) = rest.split_page() {
                if others.begins_before(place) {
                    self.put_page(placed.start, &placed.page)?;
                    rest = others;
                    continue;
                }
            }
            match rest.split_first() {
                Some((start, placed, others)) => {
                    if !others.begins_before(place) {
                        return Ok(rest);
                    }
                    self.share(start, placed)?;
                    rest = others;
                }
                None => return Ok(rest),
            }
        }
    }

    /// Shares groups after the ranges, each at its place. Pages are shared as a whole, unless they become one with groups before them.
    /// `Err`: out of memory.
    #[inline(always)]
    pub(crate) fn share_all(&mut self, groups: GroupCursor<'_, T>) -> Result<(), AllocError>
        requires builder { IsGroupBuilder T.rules self.old }
        requires room { length (flat (grouped self.old)) + length (flat (spread groups)) < 2 ^ 64 }
        ensures builder { IfOk result (λ _. IsGroupBuilder T.rules self.new) }
        ensures ranges { IfOk result (λ _. grouped self.new ≡ grouped self.old ++ spread groups.entry) }
    {
        let mut rest = groups;
        loop {
            if let Some((placed, others)) = rest.split_page() {
                if !self.done.joins(placed.page.groups.len()) {
                    self.put_page(placed.start, &placed.page)?;
                    rest = others;
                    continue;
                }
            }
            match rest.split_first() {
                Some((start, placed, others)) => {
                    self.share(start, placed)?;
                    rest = others;
                }
                None => return Ok(()),
            }
        }
    }

    /// The groups of all ranges, and how many ranges there are. `Err`: out of memory.
    #[inline(always)]
    pub(crate) fn finish(self) -> Result<(GroupList<T>, usize), AllocError>
        requires { IsGroupBuilder T.rules self }
        ensures groups { IfOk result (λ made. AreGroupsOf T.rules made.0 made.1) }
        ensures ranges { IfOk result (λ made. spread made.0 ≡ grouped self) }
    {
        Ok((self.done.finish()?, self.len))
    }
}

/// How many of some chunks come into the first part where they are cut, and `full` make a group full: all, where they make one group.
/// They do where they are one chunk, or at most `full` of which none is of a range longer than `MAX_GROUP_LEN`. Where at most `full` and
/// those of a small group are left, those before the first of a longer range do, or it alone where it stands first; else as many as
/// `part_len` says.
fn group_len<T>(chunks: &[Placed<T>], full: usize) -> usize
    requires { 1 ≤ full }
    ensures some { 1 ≤ length chunks.now → 1 ≤ result }
    ensures within { result ≤ length chunks.now }
    ensures few { result ≡ length chunks.now → length chunks.now ≤ full }
{
    let len = chunks.len();
    let few = few_of(full);
    if len <= full.saturating_add(few) {
        let near = near_len(chunks);
        if near < len {
            return near.max(1);
        }
    }
    part_len(len, full, few)
}

/// How many chunks stand before the first whose range is too long to share a group with others.
fn near_len<T>(chunks: &[Placed<T>]) -> usize
    ensures { result ≤ length chunks.now }
{
    let mut count = 0;
    for placed in chunks {
        if is_far(placed) {
            return count;
        }
        count += 1;
    }
    count
}
