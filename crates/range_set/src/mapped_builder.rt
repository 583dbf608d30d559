ghost use Rattle.std.specs.Prelude.{IfOk, [], ◌++◌, ◌+◌, ◌≡◌, ◌≤◌, ◌<◌, ◌^◌, length, map};
ghost use Rattle.range_set.specs.Order.{AllForward, before};
ghost use Rattle.range_set.specs.PrivateChunks.{AreGroupsOf, Ascend, IsChunk, IsGroup, content, flat, group_content, shift, spread};
ghost use Rattle.range_set.specs.PrivateBuilders.{IsMappedBuilder, built, grouped, put_down};
ghost use Rattle.stable_order.specs.StableSort.{stable_sort};

use crate::chunk::{MAX_RANGES, Placed};
use crate::chunk_builder::ChunkBuilder;
use crate::group::PlacedGroup;
use crate::group_builder::GroupBuilder;
use crate::group_list::GroupList;
use crate::parts::{joined_of, reserve};
use crate::range_value::RangeValue;
use crate::ranged::Ranged;
use crate::sorting::put_sorted;
use std::alloc::{AllocError, Global};
use std::mem;

/// Cuts ranges that changes moved into groups: groups that are done, chunks that come after them and aren't in a group yet, and a run
/// of ranges that is still to be sorted.
#[derive(Drop)]
pub(crate) struct MappedBuilder<T: RangeValue> {
    pub(crate) groups: GroupBuilder<T>,
    pub(crate) chunks: ChunkBuilder<T>,
    pub(crate) run: Vec<Ranged<T>>,
}

impl<T: RangeValue> MappedBuilder<T> {
    /// A builder without ranges for what becomes of a set of so many pages, of which the first has so many groups. `Err`: out of
    /// memory.
    pub(crate) fn for_pages(
        alloc: Global,
        pages: usize,
        groups: usize,
    ) -> Result<MappedBuilder<T>, AllocError>
        ensures builder { IfOk result (IsMappedBuilder T.rules) }
        ensures ranges { IfOk result (λ builder. put_down builder ≡ []) }
        ensures none { IfOk result (λ builder. builder.run.items ≡ []) }
    {
        Ok(MappedBuilder {
            groups: GroupBuilder::for_pages(alloc, pages, groups)?,
            chunks: ChunkBuilder::new(alloc),
            run: Vec::new(alloc),
        })
    }

    /// Makes room for so many chunks, and where there are none yet, for so many more, or as many as make a group full, if those are
    /// more. `Err`: out of memory.
    pub(crate) fn reserve(&mut self, chunks: usize, more: usize) -> Result<(), AllocError>
        requires builder { IsMappedBuilder T.rules self.old }
        ensures builder { IsMappedBuilder T.rules self.new }
        ensures ranges { put_down self.new ≡ put_down self.old }
        ensures run { self.new.run ≡ self.old.run }
    {
        let expected = chunks.saturating_add(more).max(self.groups.full);
        reserve(&mut self.chunks.done, chunks, expected)
    }

    /// Whether a group of so many chunks is to become one with those that stand before it and aren't in a group yet: whether there are
    /// any, and all of them fill at most three quarters of a full group. No contract speaks of this: it only decides which groups are shared.
    pub(crate) fn joins(&self, len: usize) -> bool {
        if self.run.is_empty() && self.chunks.done.is_empty() {
            return false;
        }
        let of_run = self.run.len().saturating_add(MAX_RANGES - 1) / MAX_RANGES;
        let open = self.chunks.done.len().saturating_add(of_run);
        open.saturating_add(len) <= joined_of(self.groups.full)
    }

    /// Sorts the run and puts a chunk after it. `Err`: out of memory.
    pub(crate) fn put_chunk(&mut self, placed: Placed<T>) -> Result<(), AllocError>
        requires builder { IsMappedBuilder T.rules self.old }
        requires order { Ascend 0 (put_down self.old ++ stable_sort (before T.rules) self.old.run.items) }
        requires forward { AllForward self.old.run.items }
        requires chunk { IsChunk T.rules placed.start (content placed) }
        requires some { 1 ≤ length (content placed).ranges }
        ensures builder { IfOk result (λ _. IsMappedBuilder T.rules self.new) }
        ensures ranges { IfOk result (λ _. put_down self.new ≡ put_down self.old ++ stable_sort (before T.rules) self.old.run.items ++ map (shift placed.start) (content placed).ranges) }
        ensures none { IfOk result (λ _. self.new.run.items ≡ []) }
    {
        put_sorted(&mut self.run, &mut self.chunks)?;
        self.chunks.put(placed)
    }

    /// Sorts the run and puts a chunk after it, at a place of its own, and shares it. `Err`: out of memory.
    pub(crate) fn share_chunk(&mut self, start: u32, placed: &Placed<T>) -> Result<(), AllocError>
        requires builder { IsMappedBuilder T.rules self.old }
        requires order { Ascend 0 (put_down self.old ++ stable_sort (before T.rules) self.old.run.items) }
        requires forward { AllForward self.old.run.items }
        requires chunk { IsChunk T.rules start (content placed.now) }
        requires some { 1 ≤ length (content placed.now).ranges }
        ensures builder { IfOk result (λ _. IsMappedBuilder T.rules self.new) }
        ensures ranges { IfOk result (λ _. put_down self.new ≡ put_down self.old ++ stable_sort (before T.rules) self.old.run.items ++ map (shift start) (content placed.now).ranges) }
        ensures none { IfOk result (λ _. self.new.run.items ≡ []) }
    {
        put_sorted(&mut self.run, &mut self.chunks)?;
        self.chunks.share(start, placed)
    }

    /// Sorts the run and puts a group after it. No chunks are left outside groups. `Err`: out of memory.
    pub(crate) fn put_group(&mut self, placed: PlacedGroup<T>) -> Result<(), AllocError>
        requires builder { IsMappedBuilder T.rules self.old }
        requires order { Ascend 0 (put_down self.old ++ stable_sort (before T.rules) self.old.run.items) }
        requires forward { AllForward self.old.run.items }
        requires group { IsGroup T.rules placed.start (group_content placed) }
        requires some { 1 ≤ length (flat (group_content placed).chunks) }
        requires room { length (put_down self.old) + length self.old.run.items + length (flat (group_content placed).chunks) < 2 ^ 64 }
        ensures builder { IfOk result (λ _. IsMappedBuilder T.rules self.new) }
        ensures ranges { IfOk result (λ _. put_down self.new ≡ put_down self.old ++ stable_sort (before T.rules) self.old.run.items ++ map (shift placed.start) (flat (group_content placed).chunks)) }
        ensures none { IfOk result (λ _. self.new.run.items ≡ []) }
        ensures ended { IfOk result (λ _. built self.new.chunks ≡ []) }
    {
        put_sorted(&mut self.run, &mut self.chunks)?;
        self.end_groups()?;
        self.groups.put(placed)
    }

    /// Sorts the run and puts a group after it, at a place of its own, and shares it. No chunks are left outside groups. `Err`: out of
    /// memory.
    pub(crate) fn share_group(
        &mut self,
        start: u32,
        placed: &PlacedGroup<T>,
    ) -> Result<(), AllocError>
        requires builder { IsMappedBuilder T.rules self.old }
        requires order { Ascend 0 (put_down self.old ++ stable_sort (before T.rules) self.old.run.items) }
        requires forward { AllForward self.old.run.items }
        requires group { IsGroup T.rules start (group_content placed.now) }
        requires some { 1 ≤ length (flat (group_content placed.now).chunks) }
        requires room { length (put_down self.old) + length self.old.run.items + length (flat (group_content placed.now).chunks) < 2 ^ 64 }
        ensures builder { IfOk result (λ _. IsMappedBuilder T.rules self.new) }
        ensures ranges { IfOk result (λ _. put_down self.new ≡ put_down self.old ++ stable_sort (before T.rules) self.old.run.items ++ map (shift start) (flat (group_content placed.now).chunks)) }
        ensures none { IfOk result (λ _. self.new.run.items ≡ []) }
        ensures ended { IfOk result (λ _. built self.new.chunks ≡ []) }
    {
        put_sorted(&mut self.run, &mut self.chunks)?;
        self.end_groups()?;
        self.groups.share(start, placed)
    }

    /// Puts the chunks after the groups that are done into groups. `Err`: out of memory.
    #[inline(always)]
    fn end_groups(&mut self) -> Result<(), AllocError>
        requires builder { IsMappedBuilder T.rules self.old }
        requires order { Ascend 0 (put_down self.old) }
        requires room { length (put_down self.old) < 2 ^ 64 }
        ensures builder { IfOk result (λ _. IsMappedBuilder T.rules self.new) }
        ensures ranges { IfOk result (λ _. flat (grouped self.new.groups) ≡ put_down self.old) }
        ensures ended { IfOk result (λ _. built self.new.chunks ≡ []) }
        ensures run { IfOk result (λ _. self.new.run ≡ self.old.run) }
    {
        if self.chunks.is_empty() {
            return Ok(());
        }
        let alloc = *self.run.allocator();
        let chunks = mem::replace(&mut self.chunks, ChunkBuilder::new(alloc));
        self.groups.put_all(chunks.finish())
    }

    /// The groups of all ranges, and how many ranges there are. `Err`: out of memory.
    #[inline(always)]
    pub(crate) fn finish(mut self) -> Result<(GroupList<T>, usize), AllocError>
        requires builder { IsMappedBuilder T.rules self }
        requires order { Ascend 0 (put_down self ++ stable_sort (before T.rules) self.run.items) }
        requires forward { AllForward self.run.items }
        requires room { length (put_down self) + length self.run.items < 2 ^ 64 }
        ensures groups { IfOk result (λ made. AreGroupsOf T.rules made.0 made.1) }
        ensures ranges { IfOk result (λ made. flat (spread made.0) ≡ put_down self ++ stable_sort (before T.rules) self.run.items) }
    {
        put_sorted(&mut self.run, &mut self.chunks)?;
        self.end_groups()?;
        self.groups.finish()
    }
}
