ghost use Rattle.std.specs.Prelude.{IfOk, IfSome, false, [], map, ℕ, ◌+◌, ◌-◌, ◌≡◌, ◌≤◌, ◌<◌, ◌^◌, length};
ghost use Rattle.std.specs.List.{list_any};
ghost use Rattle.change_desc.specs.Meeting.{BeginAfter, EndsAtOrAfter};
ghost use Rattle.change_desc.specs.Ranges.{meets, replaced};
ghost use Rattle.change_desc.specs.Sections.{counted, new_size, old_size};
ghost use Rattle.range_set.specs.Mapping.{EndWithin};
ghost use Rattle.range_set.specs.PrivateMoving.{IsClearWalk, IsMovedAlone};
ghost use Rattle.range_set.specs.Order.{AllForward};
ghost use Rattle.range_set.specs.PrivateChunks.{Ascend, IsChunk, content, first_start, greatest_end, lengthen, plain, shift, stretch};

use crate::clear_walk::ClearWalk;
use crate::range_value::RangeValue;
use crate::ranged::Ranged;
use change_desc::{ChangedRange, MapMode, PositionIndex, first_meets};
use std::alloc::AllocError;
use std::rc::Rc;

/// The greatest number of ranges of a chunk that is made: less than a sixth of what the count of mapped ranges allows. A change maps each
/// range of the chunks that it meets, mostly one or two.
pub(crate) const MAX_RANGES: usize = 20;

/// The greatest number of ranges of a small chunk. No run of more ranges is cut into small chunks, unless one of them is longer than
/// `MAX_SHARED_LEN`, and an update copies a small one where a run that isn't done stands before it, or an added range follows by
/// the end of the next chunk.
pub(crate) const FEW_RANGES: usize = 8;

/// The greatest length, in characters, of a range that shares a chunk with others. A longer one has a chunk of its own: changes far
/// away meet it, and would map the others with it.
pub(crate) const MAX_SHARED_LEN: u32 = 256;

/// Ranges in order, whose places count from the start of the first. Contracts allow up to 128 of them; a chunk that is made has at most
/// 20. The range of a chunk of one has no length here: its length stands beside the place of the chunk or of its group.
#[derive(Drop)]
pub(crate) struct Chunk<T> {
    /// Their greatest end as they stand here: the hull of the chunk runs from its place to its place, this and what
    /// `Placed` and `PlacedGroup` add.
    pub(crate) reach: u32,
    /// Whether one of them, at its full length, is empty with an end side less than its start side.
    pub(crate) is_turned: bool,
    /// Whether one of them stands for what it covers.
    pub(crate) has_point: bool,
    /// The list stands last: what is read without it then mostly lies beside the counts of the owners, in one line of the cache.
    pub(crate) ranges: Vec<Ranged<T>>,
}

/// A chunk, which sets share, at its place: the start of its first range, in characters.
#[derive(Drop)]
pub(crate) struct Placed<T> {
    pub(crate) start: u32,
    /// By how many characters each range ends later than its chunk says: the length of the range of a chunk of one, so that it keeps
    /// its chunk as it grows and shrinks; 0 in a chunk of more, and where the length stands beside the group's place. Contracts ask for
    /// none of this.
    pub(crate) grown: u32,
    pub(crate) chunk: Rc<Chunk<T>>,
}

impl<T: RangeValue> Placed<T> {
    /// Ranges in order, at the place `start`, where the first of them starts. `Err`: out of memory.
    pub(crate) fn of(start: u32, ranges: Vec<Ranged<T>>) -> Result<Placed<T>, AllocError>
        requires few { length ranges.items ≤ 128 }
        requires first { first_start ranges.items ≡ start }
        requires order { Ascend start ranges.items }
        requires forward { AllForward ranges.items }
        ensures place { IfOk result (λ placed. placed.start ≡ start) }
        ensures chunk { IfOk result (λ placed. IsChunk T.rules start (content placed)) }
        ensures ranges { IfOk result (λ placed. map (shift start) (content placed).ranges ≡ ranges.items) }
    {
        let alloc = *ranges.allocator();
        let mut chunk = Chunk::of(start, ranges);
        let grown = chunk.take_len();
        let chunk = Rc::new(alloc, chunk)?;
        Ok(Placed {
            start,
            grown,
            chunk,
        })
    }

    /// The same chunk at another place. `Err`: no further owner can be counted.
    #[inline(always)]
    pub(crate) fn at(&self, start: u32) -> Result<Placed<T>, AllocError>
        ensures place { IfOk result (λ placed. placed.start ≡ start) }
        ensures content { IfOk result (λ placed. content placed ≡ content self.now) }
    {
        Ok(Placed {
            start,
            grown: self.grown,
            chunk: self.chunk.clone()?,
        })
    }

    /// This chunk, shared, where changes move its only range, if no replaced range meets its start and it is too long there to share
    /// a chunk with others; else `None`. No contract says when: it only decides which chunks are shared. The replaced ranges are given
    /// from the first on that doesn't end before the range. `Err`: no further owner can be counted.
    #[inline(always)]
    pub(crate) fn moved_alone<'a>(
        &self,
        start: u32,
        changed: &'a [ChangedRange],
        walk: &mut ClearWalk<'a>,
        index: &PositionIndex,
    ) -> Result<Option<Placed<T>>, AllocError>
        requires walk { IsClearWalk walk.old }
        requires index { index.now ≡ walk.old.walker.desc }
        requires order { BeginAfter 0 changed.now }
        requires first { EndsAtOrAfter start changed.now }
        requires same { (a b : ℕ) → start ≤ a → list_any (meets a b) changed.now ≡ list_any (meets a b) (replaced walk.old.walker.desc) }
        requires room { new_size counted walk.old.walker.desc < 2 ^ 32 }
        requires chunk { IsChunk T.rules start (content self.now) }
        requires inside { EndWithin (old_size walk.old.walker.desc) (map (shift start) (content self.now).ranges) }
        requires ascending { walk.old.walker.reached ≤ start }
        ensures clear { IfOk result (λ _. IsClearWalk walk.new) }
        ensures desc { IfOk result (λ _. walk.new.walker.desc ≡ walk.old.walker.desc) }
        ensures reached { IfOk result (λ _. walk.new.walker.reached ≤ start) }
        ensures moved { IfOk result (λ moved. IfSome moved (λ new. IsMovedAlone T.rules walk.old.walker.desc start (content self.now) new.start (content new))) }
    {
        let Some((from, to)) = ends_alone(start, self.grown, &self.chunk, changed, walk, index)
        else {
            return Ok(None);
        };
        let chunk = self.chunk.clone()?;
        Ok(Some(Placed {
            start: from,
            grown: to - from,
            chunk,
        }))
    }

    /// The same chunk at another place, where each range ends later by so much more. `Err`: no further owner can be counted.
    #[inline(always)]
    pub(crate) fn lengthened(&self, start: u32, grown: u32) -> Result<Placed<T>, AllocError>
        requires { self.now.grown + grown < 2 ^ 32 }
        ensures place { IfOk result (λ placed. placed.start ≡ start) }
        ensures content { IfOk result (λ placed. content placed ≡ content (lengthen grown self.now)) }
    {
        Ok(Placed {
            start,
            grown: self.grown + grown,
            chunk: self.chunk.clone()?,
        })
    }

    /// The greatest end of its ranges, counted from its place.
    #[inline(always)]
    pub(crate) fn reach(&self) -> u32
        requires { (content self.now).reach < 2 ^ 32 }
        ensures { result ≡ (content self.now).reach }
    {
        self.chunk.reach + self.grown
    }
}

impl<T: RangeValue> Chunk<T> {
    /// The chunk of ranges in order at the place `start`, where the first of them starts.
    pub(crate) fn of(start: u32, mut ranges: Vec<Ranged<T>>) -> Chunk<T>
        requires few { length ranges.items ≤ 128 }
        requires first { first_start ranges.items ≡ start }
        requires order { Ascend start ranges.items }
        requires forward { AllForward ranges.items }
        ensures chunk { IsChunk T.rules start (plain result) }
        ensures ranges { map (shift start) result.ranges.items ≡ ranges.items }
    {
        let mut reach: u32 = 0;
        let mut is_turned = false;
        let mut has_point = false;
        for range in ranges.iter_mut() {
            is_turned |= range.is_turned();
            has_point |= range.value.is_point();
            range.from -= start;
            range.to -= start;
            reach = reach.max(range.to);
        }
        Chunk {
            ranges,
            reach,
            is_turned,
            has_point,
        }
    }

    /// Takes the length of the range of a chunk of one, which then has none, and gives it; 0 of a chunk of more.
    fn take_len(&mut self) -> u32
        requires { self.old.reach ≡ greatest_end self.old.ranges.items }
        ensures { stretch result self.new ≡ plain self.old }
    {
        match self.ranges.as_mut_slice() {
            [only] => {
                let len = only.to;
                only.to = 0;
                self.reach = 0;
                len
            }
            _ => 0,
        }
    }
}

/// The ends to which changes move the only range of a chunk at the place `start` that ends later by `grown`, if no replaced range meets
/// its start and it is too long there to share a chunk with others; else `None`. No contract says when: it only decides what is shared.
/// The replaced ranges are given from the first on that doesn't end before the range.
#[inline(always)]
pub(crate) fn ends_alone<'a, T: RangeValue>(
    start: u32,
    grown: u32,
    chunk: &Chunk<T>,
    changed: &'a [ChangedRange],
    walk: &mut ClearWalk<'a>,
    index: &PositionIndex,
) -> Option<(u32, u32)>
    requires walk { IsClearWalk walk.old }
    requires index { index.now ≡ walk.old.walker.desc }
    requires order { BeginAfter 0 changed.now }
    requires first { EndsAtOrAfter start changed.now }
    requires same { (a b : ℕ) → start ≤ a → list_any (meets a b) changed.now ≡ list_any (meets a b) (replaced walk.old.walker.desc) }
    requires room { new_size counted walk.old.walker.desc < 2 ^ 32 }
    requires chunk { IsChunk T.rules start (stretch grown chunk.now) }
    requires inside { EndWithin (old_size walk.old.walker.desc) (map (shift start) (stretch grown chunk.now).ranges) }
    requires ascending { walk.old.walker.reached ≤ start }
    ensures clear { IsClearWalk walk.new }
    ensures desc { walk.new.walker.desc ≡ walk.old.walker.desc }
    ensures reached { walk.new.walker.reached ≤ start }
    ensures forward { IfSome result (λ ends. ends.0 ≤ ends.1) }
    ensures moved { IfSome result (λ ends. IsMovedAlone T.rules walk.old.walker.desc start (stretch grown chunk.now) ends.0 (stretch (ends.1 - ends.0) chunk.now)) }
{
    let [only] = chunk.ranges.as_slice() else {
        return None;
    };
    // A chunk of one keeps no length, so the end is 0: this is asked so that no contract needs to say it.
    if only.to != 0 || grown == 0 || first_meets(changed, start, start) {
        return None;
    }
    let end = start + grown;
    let side = only.value.end_side();
    let Some(to) = index.walk_from(end).map_pos(end, side, MapMode::Simple) else {
        return None;
    };
    let from = walk.place_after(start, changed);
    if to.saturating_sub(from) <= MAX_SHARED_LEN {
        return None;
    }
    Some((from, to))
}

/// Whether a range shares no chunk with others, since it is longer than `MAX_SHARED_LEN`. No contract speaks of this: it only
/// decides where chunks are cut.
pub(crate) fn is_long<T>(range: &Ranged<T>) -> bool {
    range.to.saturating_sub(range.from) > MAX_SHARED_LEN
}
