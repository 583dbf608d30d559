ghost use Rattle.std.specs.Prelude.{IfOk, IfSome, map, ℕ, ◌≡◌, ◌≤◌, ◌<◌, ◌^◌, length};
ghost use Rattle.std.specs.List.{list_any};
ghost use Rattle.change_desc.specs.Meeting.{BeginAfter, EndsAtOrAfter};
ghost use Rattle.change_desc.specs.Ranges.{meets, replaced};
ghost use Rattle.change_desc.specs.Sections.{counted, new_size, old_size};
ghost use Rattle.range_set.specs.Mapping.{EndWithin};
ghost use Rattle.range_set.specs.PrivateMoving.{IsClearWalk, IsGroupMovedAlone};
ghost use Rattle.range_set.specs.PrivateChunks.{AreChunks, Ascend, IsGroup, first_start, flat, group_content, group_plain, group_stretch, lengthen, move, shift};

use crate::chunk::{Placed, ends_alone};
use crate::clear_walk::ClearWalk;
use crate::range_value::RangeValue;
use change_desc::{ChangedRange, PositionIndex};
use std::alloc::AllocError;
use std::rc::Rc;

/// How many chunks make a group full in a small set.
const MIN_FULL: usize = 16;

/// How many chunks make a group full in a large set.
const MAX_FULL: usize = 32;

/// The greatest length, in characters, of a range that shares a group with others. A longer one has a group of its own: most changes
/// that meet it lie within it, and would make the group anew.
pub(crate) const MAX_GROUP_LEN: u32 = 4_096;

/// How many chunks make a group full in a set of so many pages: as many as there are pages, from 16 to 32. A change shares the pages
/// that it doesn't meet, the groups of those that it does, and the chunks of the groups that it does, one by one, so none of them
/// should be many.
pub(crate) fn full_among(pages: usize) -> usize
    ensures { (1 ≤ result) × (result ≤ 64) }
{
    pages.max(MIN_FULL).min(MAX_FULL)
}

/// How many chunks make a group full in a set of so many chunks whose groups are made at once: one for each 1,024 chunks, from 16 to
/// 32, so that changes don't part these groups.
pub(crate) fn full_for(chunks: usize) -> usize
    ensures { (1 ≤ result) × (result ≤ 64) }
{
    (chunks / 1_024).max(MIN_FULL).min(MAX_FULL)
}

/// The greatest number of chunks of a small group: no run of more chunks is cut into small groups.
pub(crate) fn few_of(full: usize) -> usize {
    full / 4
}

/// Chunks in order, whose places count from the start of the first range. Contracts allow up to 64 of them; a group that is made has
/// no more than make it full, which are 16 to 32.
#[derive(Drop)]
pub(crate) struct Group<T> {
    /// How many ranges they have.
    pub(crate) count: usize,
    /// Their greatest end as they stand here: the hull of the group runs from its place to its place, this and what `PlacedGroup` adds.
    pub(crate) reach: u32,
    /// Whether one of their ranges is empty with an end side less than its start side.
    pub(crate) is_turned: bool,
    /// Whether one of their ranges stands for what it covers.
    pub(crate) has_point: bool,
    pub(crate) chunks: Vec<Placed<T>>,
}

/// A group, which sets share, at its place: the start of its first range, in characters.
#[derive(Drop)]
pub(crate) struct PlacedGroup<T> {
    pub(crate) start: u32,
    /// By how many characters each range ends later than its group says: the length of a range longer than `MAX_GROUP_LEN`, which is
    /// the only one of its group, so that it keeps its group as it grows and shrinks; 0 in a group of more. Contracts ask that a group
    /// of more than one chunk has 0.
    pub(crate) grown: u32,
    pub(crate) group: Rc<Group<T>>,
}

impl<T: RangeValue> PlacedGroup<T> {
    /// The group of chunks in order at the place `start`, where the first of them stands. `Err`: out of memory.
    pub(crate) fn of(start: u32, chunks: Vec<Placed<T>>) -> Result<PlacedGroup<T>, AllocError>
        requires few { length chunks.items ≤ 64 }
        requires chunks { AreChunks T.rules chunks.items }
        requires first { first_start (flat chunks.items) ≡ start }
        requires order { Ascend start (flat chunks.items) }
        requires room { length (flat chunks.items) < 2 ^ 64 }
        ensures place { IfOk result (λ placed. placed.start ≡ start) }
        ensures group { IfOk result (λ placed. IsGroup T.rules start (group_content placed)) }
        ensures chunks { IfOk result (λ placed. map (move start) (group_content placed).chunks ≡ chunks.items) }
    {
        let alloc = *chunks.allocator();
        let mut group = Group::of(start, chunks);
        let grown = group.take_len(start);
        let group = Rc::new(alloc, group)?;
        Ok(PlacedGroup {
            start,
            grown,
            group,
        })
    }

    /// The same group at another place. `Err`: no further owner can be counted.
    #[inline(always)]
    pub(crate) fn at(&self, start: u32) -> Result<PlacedGroup<T>, AllocError>
        ensures place { IfOk result (λ placed. placed.start ≡ start) }
        ensures content { IfOk result (λ placed. group_content placed ≡ group_content self.now) }
    {
        Ok(PlacedGroup {
            start,
            grown: self.grown,
            group: self.group.clone()?,
        })
    }

    /// This group, shared, where changes move its only range, if no replaced range meets its start and it is too long there to share
    /// a group with others; else `None`. No contract says when: it only decides which groups are shared. The replaced ranges are given
    /// from the first on that doesn't end before the range. `Err`: no further owner can be counted.
    #[inline(always)]
    pub(crate) fn moved_alone<'a>(
        &self,
        start: u32,
        changed: &'a [ChangedRange],
        walk: &mut ClearWalk<'a>,
        index: &PositionIndex,
    ) -> Result<Option<PlacedGroup<T>>, AllocError>
        requires walk { IsClearWalk walk.old }
        requires index { index.now ≡ walk.old.walker.desc }
        requires order { BeginAfter 0 changed.now }
        requires first { EndsAtOrAfter start changed.now }
        requires same { (a b : ℕ) → start ≤ a → list_any (meets a b) changed.now ≡ list_any (meets a b) (replaced walk.old.walker.desc) }
        requires room { new_size counted walk.old.walker.desc < 2 ^ 32 }
        requires group { IsGroup T.rules start (group_content self.now) }
        requires inside { EndWithin (old_size walk.old.walker.desc) (map (shift start) (flat (group_content self.now).chunks)) }
        requires ascending { walk.old.walker.reached ≤ start }
        ensures clear { IfOk result (λ _. IsClearWalk walk.new) }
        ensures desc { IfOk result (λ _. walk.new.walker.desc ≡ walk.old.walker.desc) }
        ensures reached { IfOk result (λ _. walk.new.walker.reached ≤ start) }
        ensures moved { IfOk result (λ moved. IfSome moved (λ new. IsGroupMovedAlone T.rules walk.old.walker.desc start (group_content self.now) new.start (group_content new))) }
    {
        let [only] = self.group.chunks.as_slice() else {
            return Ok(None);
        };
        // The chunk stands where the group does, and has no length of its own: this is asked so that no contract needs to say it.
        if only.start != 0 || only.grown != 0 {
            return Ok(None);
        }
        let Some((from, to)) = ends_alone(start, self.grown, &only.chunk, changed, walk, index)
        else {
            return Ok(None);
        };
        if to - from <= MAX_GROUP_LEN {
            return Ok(None);
        }
        let group = self.group.clone()?;
        Ok(Some(PlacedGroup {
            start: from,
            grown: to - from,
            group,
        }))
    }

    /// The greatest end of its ranges, counted from its place.
    #[inline(always)]
    pub(crate) fn reach(&self) -> u32
        requires { (group_content self.now).reach < 2 ^ 32 }
        ensures { result ≡ (group_content self.now).reach }
    {
        self.group.reach + self.grown
    }
}

impl<T: RangeValue> Group<T> {
    /// The group of chunks in order at the place `start`, where the first of them stands.
    pub(crate) fn of(start: u32, mut chunks: Vec<Placed<T>>) -> Group<T>
        requires few { length chunks.items ≤ 64 }
        requires chunks { AreChunks T.rules chunks.items }
        requires first { first_start (flat chunks.items) ≡ start }
        requires order { Ascend start (flat chunks.items) }
        requires room { length (flat chunks.items) < 2 ^ 64 }
        ensures group { IsGroup T.rules start (group_plain result) }
        ensures chunks { map (move start) result.chunks.items ≡ chunks.items }
    {
        let mut count: usize = 0;
        let mut reach: u32 = 0;
        let mut is_turned = false;
        let mut has_point = false;
        for placed in chunks.iter_mut() {
            let from = placed.start - start;
            count += placed.chunk.ranges.len();
            reach = reach.max(from + placed.reach());
            is_turned |= placed.chunk.is_turned;
            has_point |= placed.chunk.has_point;
            placed.start = from;
        }
        Group {
            chunks,
            count,
            reach,
            is_turned,
            has_point,
        }
    }

    /// Takes the length of the range of the only chunk, where it is too long to share a group with others, and gives it; else 0. The
    /// group is to stand at the place `start`.
    fn take_len(&mut self, start: u32) -> u32
        requires { IsGroup T.rules start (group_plain self.old) }
        ensures group { IsGroup T.rules start (group_stretch result self.new) }
        ensures chunks { (group_stretch result self.new).chunks ≡ self.old.chunks.items }
    {
        match self.chunks.as_mut_slice() {
            [only] => {
                if !is_far(only) {
                    return 0;
                }
                let len = only.grown;
                only.grown = 0;
                self.reach -= len;
                len
            }
            _ => 0,
        }
    }
}

/// Whether a chunk shares no group with others, since its range is longer than `MAX_GROUP_LEN`. No contract speaks of this: it only
/// decides where groups are cut.
pub(crate) fn is_far<T>(placed: &Placed<T>) -> bool {
    placed.grown > MAX_GROUP_LEN
}
