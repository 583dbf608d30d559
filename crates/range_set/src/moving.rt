ghost use Rattle.std.specs.Prelude.{IfOk, List, [], false, length, true, ℕ, ◌*◌, ◌++◌, ◌+◌, ◌<◌, ◌^◌, ◌||◌, ◌≡◌, ◌≤◌, filter_map, map};
ghost use Rattle.std.specs.List.{list_any};
ghost use Rattle.change_desc.specs.declared.changed_range.ChangedRange.{ChangedRange};
ghost use Rattle.change_desc.specs.Meeting.{BeginAfter, EndsAtOrAfter};
ghost use Rattle.change_desc.specs.Ranges.{meets, replaced};
ghost use Rattle.change_desc.specs.Sections.{counted, new_size, old_size};
ghost use Rattle.range_set.specs.declared.ranged.Ranged.{Ranged};
ghost use Rattle.range_set.specs.Mapping.{EndWithin, map_ranges, moved, most_mapped};
ghost use Rattle.range_set.specs.Order.{first_fault};
ghost use Rattle.range_set.specs.PrivateMoving.{AreMoved, AreWithin, IsClearWalk};
ghost use Rattle.range_set.specs.PrivateChunks.{AreGroups, AreGroupsOf, Ascend, IsChunk, IsGroup, content, flat, group_content, grow, shift, spread, stretch};

use crate::chunk::{Chunk, MAX_SHARED_LEN, Placed};
use crate::clear_walk::ClearWalk;
use crate::group::PlacedGroup;
use crate::group_cursor::GroupCursor;
use crate::group_list::GroupList;
use crate::mapped_builder::MappedBuilder;
use crate::parts::reserve;
use crate::range_ref::RangeRef;
use crate::range_value::RangeValue;
use crate::ranged::Ranged;
use change_desc::{ChangedRange, Desc, PositionIndex, first_meets, ranges_from};
use std::alloc::{AllocError, Global};
use std::rc::Rc;
use std::sync::ledger::Ledger;
use steps::Steps;

/// The groups of a set after changes, and how many ranges they have. Groups that the changes don't affect are moved and shared, unless
/// they become one with chunks before them; of the others the chunks that they don't affect are. `Err`: out of memory.
pub(crate) fn mapped_groups<T: RangeValue, L: Ledger>(
    alloc: Global,
    groups: GroupCursor<'_, T>,
    changes: &Desc,
    mapped: &mut Steps<L>,
) -> Result<(GroupList<T>, usize), AllocError>
    requires groups { AreGroups T.rules groups }
    requires order { first_fault T.rules (flat (spread groups)) ≡ None }
    requires room { length (flat (spread groups)) < 2 ^ 64 }
    requires inside { EndWithin (old_size changes.now) (flat (spread groups)) }
    ensures groups { IfOk result (λ made. AreGroupsOf T.rules made.0 made.1) }
    ensures ranges { IfOk result (λ made. flat (spread made.0) ≡ map_ranges T.rules changes.now (flat (spread groups.entry))) }
    ensures cost { mapped.new ≤ mapped.old + most_mapped T.rules changes.now (flat (spread groups.entry)) }
{
    let changed = changes.ranges(true)?;
    let index = PositionIndex::new(alloc, changes)?;
    map_all(alloc, groups, changes, &changed, &index, mapped)
}

/// The groups of a set after changes, and how many ranges they have, where the replaced ranges and an index of the changes are
/// given. A group whose hull meets no Replace, and in which no empty range has an end side less than its start side, is shared,
/// unless it becomes one with chunks before it, and whole pages of such groups before the first Replace and after a shared group are
/// shared as pages; of the others the same holds of each chunk, and a chunk or a group of one range may be shared with another length.
/// The ranges of the other chunks, and such a one, are mapped each by itself, which raises `mapped` by one. The ranges between two that
/// are shared are sorted by themselves, since what is shared parts those before it from those after it. `Err`: out of memory.
fn map_all<'a, T: RangeValue, L: Ledger>(
    alloc: Global,
    groups: GroupCursor<'_, T>,
    changes: &'a Desc,
    changed: &'a [ChangedRange],
    index: &PositionIndex,
    mapped: &mut Steps<L>,
) -> Result<(GroupList<T>, usize), AllocError>
    requires replaced { changed.now ≡ replaced changes.now }
    requires index { index.now ≡ changes.now }
    requires groups { AreGroups T.rules groups }
    requires order { first_fault T.rules (flat (spread groups)) ≡ None }
    requires room { length (flat (spread groups)) < 2 ^ 64 }
    requires inside { EndWithin (old_size changes.now) (flat (spread groups)) }
    ensures groups { IfOk result (λ made. AreGroupsOf T.rules made.0 made.1) }
    ensures ranges { IfOk result (λ made. flat (spread made.0) ≡ map_ranges T.rules changes.now (flat (spread groups.entry))) }
    ensures cost { mapped.new ≤ mapped.old + most_mapped T.rules changes.now (flat (spread groups.entry)) }
{
    // The proof takes from this line that lengths of the new document fit u32.
    let _new_len = changes.new_len();
    let mut left = changed;
    let mut walk = ClearWalk::new(changes);
    let mut builder = MappedBuilder::for_pages(alloc, groups.pages_left(), groups.groups_next())?;
    // Groups before the first that a change affects stay in place: they are shared here, as pages where they can be.
    let mut rest = builder.groups.share_carried(groups, 0, 0, changed)?;
    while let Some((at, placed, others)) = rest.split_first() {
        left = ranges_from(left, at);
        rest = others;
        if is_opened(at, placed, left, &builder) {
            if placed.grown == 0 {
                builder.reserve(placed.group.chunks.len(), chunks_met(&rest, left))?;
                let mut chunks = placed.group.chunks.as_slice();
                while let Some((inner, more)) = chunks.split_first() {
                    let start = inner.start + at;
                    left = ranges_from(left, start);
                    chunks = more;
                    if is_affected(start, inner, left) {
                        if let Some(alone) = inner.moved_alone(start, left, &mut walk, index)? {
                            mapped.tick();
                            builder.put_chunk(alone)?;
                        } else {
                            map_each(
                                start,
                                inner.grown,
                                &inner.chunk,
                                left,
                                &mut walk,
                                index,
                                ranges_after(&builder.run, at, more, left),
                                &mut builder.run,
                                mapped,
                            )?;
                        }
                    } else {
                        let to = walk.place_after(start, left);
                        builder.share_chunk(to, inner)?;
                        chunks = builder.chunks.share_carried(more, at, start, to, left)?;
                    }
                }
            } else if let Some(long) = placed.moved_alone(at, left, &mut walk, index)? {
                mapped.tick();
                builder.put_group(long)?;
            } else {
                map_only(at, placed, left, &mut walk, index, &mut builder.run, mapped)?;
            }
        } else {
            let to = walk.place_after(at, left);
            builder.share_group(to, placed)?;
            rest = builder.groups.share_carried(rest, at, to, left)?;
        }
    }
    builder.finish()
}

/// Whether the chunks of a group are looked at one by one: whether changes affect it, where the ranges that they replace before it are
/// left out, or it becomes one with those before it. A group of one long range does so with none, and stays apart.
fn is_opened<T: RangeValue>(
    start: u32,
    placed: &PlacedGroup<T>,
    changed: &[ChangedRange],
    builder: &MappedBuilder<T>,
) -> bool
    requires fits { start + (group_content placed.now).reach < 2 ^ 32 }
    requires order { BeginAfter 0 changed.now }
    requires first { EndsAtOrAfter start changed.now }
    ensures apart { result ≡ false → ((group_content placed.now).is_turned || list_any (meets start (start + (group_content placed.now).reach)) changed.now) ≡ false }
    ensures affected { result ≡ true → 0 < placed.now.grown → ((group_content placed.now).is_turned || list_any (meets start (start + (group_content placed.now).reach)) changed.now) ≡ true }
{
    is_group_affected(start, placed, changed)
        || (placed.grown == 0 && builder.joins(placed.group.chunks.len()))
}

/// Whether a change meets the hull of a group, where those before the group are left out, or an empty range of it has an end side
/// less than its start side.
fn is_group_affected<T: RangeValue>(
    start: u32,
    placed: &PlacedGroup<T>,
    changed: &[ChangedRange],
) -> bool
    requires fits { start + (group_content placed.now).reach < 2 ^ 32 }
    requires order { BeginAfter 0 changed.now }
    requires first { EndsAtOrAfter start changed.now }
    ensures { result ≡ ((group_content placed.now).is_turned || list_any (meets start (start + (group_content placed.now).reach)) changed.now) }
{
    placed.group.is_turned || first_meets(changed, start, start + placed.reach())
}

/// Whether changes affect a chunk: whether its hull meets a replaced range, of which those before the
/// chunk, at the place `start`, are left out, or an empty range of it has an end side less than its start side.
fn is_affected<T: RangeValue>(start: u32, placed: &Placed<T>, changed: &[ChangedRange]) -> bool
    requires fits { start + (content placed.now).reach < 2 ^ 32 }
    requires order { BeginAfter 0 changed.now }
    requires first { EndsAtOrAfter start changed.now }
    ensures { result ≡ ((content placed.now).is_turned || list_any (meets start (start + (content placed.now).reach)) changed.now) }
{
    placed.chunk.is_turned || first_meets(changed, start, start + placed.reach())
}

/// How many chunks the next group has, if the first of some replaced ranges meets it. No contract speaks of this: it only says how
/// much room to make.
fn chunks_met<T: RangeValue>(groups: &GroupCursor<'_, T>, changed: &[ChangedRange]) -> usize {
    match (groups.split_first(), changed.first()) {
        (Some((start, placed, _)), Some(first)) => {
            if is_met(
                start,
                placed.group.reach.saturating_add(placed.grown),
                first,
            ) {
                placed.group.chunks.len()
            } else {
                0
            }
        }
        _ => 0,
    }
}

/// Whether a replaced range meets the hull that runs from a place so far. No contract speaks of this: it only says how much room to
/// make.
fn is_met(start: u32, reach: u32, changed: &ChangedRange) -> bool {
    start <= changed.to_a && changed.from_a <= start.saturating_add(reach)
}

/// How many ranges are likely to come to a run after those of a chunk, where it has no room yet: those of the chunks after it that the
/// first of some replaced ranges meets, up to a long range, which may end the run. No contract speaks of this: it only says how much
/// room to make, once for all of them.
fn ranges_after<T>(
    run: &Vec<Ranged<T>>,
    base: u32,
    chunks: &[Placed<T>],
    changed: &[ChangedRange],
) -> usize {
    if run.capacity() == 0 {
        ranges_met(base, chunks, changed)
    } else {
        0
    }
}

/// How many ranges the first of some chunks have: those that the first of some replaced ranges meets, up to a long range. No contract
/// speaks of this: it only says how much room to make.
fn ranges_met<T>(base: u32, chunks: &[Placed<T>], changed: &[ChangedRange]) -> usize {
    let Some(first) = changed.first() else {
        return 0;
    };
    let mut len: usize = 0;
    for placed in chunks {
        let start = placed.start.saturating_add(base);
        if placed.grown > MAX_SHARED_LEN || !is_met(start, placed.chunk.reach, first) {
            return len;
        }
        len = len.saturating_add(placed.chunk.ranges.len());
    }
    len
}

/// Puts the ranges of a group of one chunk at the place `start` that the changes of a walk keep, moved, after a run of others. The
/// ranges that the changes replace are given from the first on that may meet the group. `Err`: out of memory.
fn map_only<'a, T: RangeValue, L: Ledger>(
    start: u32,
    placed: &PlacedGroup<T>,
    changed: &'a [ChangedRange],
    walk: &mut ClearWalk<'a>,
    index: &PositionIndex,
    run: &mut Vec<Ranged<T>>,
    mapped: &mut Steps<L>,
) -> Result<(), AllocError>
    requires walk { IsClearWalk walk.old }
    requires index { index.now ≡ walk.old.walker.desc }
    requires order { BeginAfter 0 changed.now }
    requires same { (a b : ℕ) → start ≤ a → list_any (meets a b) changed.now ≡ list_any (meets a b) (replaced walk.old.walker.desc) }
    requires room { new_size counted walk.old.walker.desc < 2 ^ 32 }
    requires group { IsGroup T.rules start (group_content placed.now) }
    requires one { length (group_content placed.now).chunks ≡ 1 }
    requires inside { EndWithin (old_size walk.old.walker.desc) (map (shift start) (flat (group_content placed.now).chunks)) }
    requires ascending { Ascend walk.old.walker.reached (map (shift start) (flat (group_content placed.now).chunks)) }
    ensures run { IfOk result (λ _. run.new.items ≡ run.old.items ++ filter_map (moved T.rules walk.old.walker.desc) (map (shift start) (flat (group_content placed.now).chunks))) }
    ensures clear { IfOk result (λ _. IsClearWalk walk.new) }
    ensures desc { IfOk result (λ _. walk.new.walker.desc ≡ walk.old.walker.desc) }
    ensures walk { IfOk result (λ _. (later : _) → Ascend walk.old.walker.reached (map (shift start) (flat (group_content placed.now).chunks) ++ later) → Ascend walk.new.walker.reached later) }
    ensures cost { mapped.new ≤ mapped.old + 128 }
{
    let [only] = placed.group.chunks.as_slice() else {
        unreachable!()
    };
    map_each(
        only.start + start,
        only.grown + placed.grown,
        &only.chunk,
        changed,
        walk,
        index,
        0,
        run,
        mapped,
    )
}

/// Puts the ranges of a chunk at the place `start` that the changes of a walk keep, moved, after a run of others, and makes room for
/// `more` further ones. Each ends later than the chunk says, by `grown`. The ranges that the changes replace are given from the first on that may
/// meet the chunk. `Err`: out of memory.
#[inline(never)]
fn map_each<'a, T: RangeValue, L: Ledger>(
    start: u32,
    grown: u32,
    chunk: &Rc<Chunk<T>>,
    changed: &'a [ChangedRange],
    walk: &mut ClearWalk<'a>,
    index: &PositionIndex,
    more: usize,
    run: &mut Vec<Ranged<T>>,
    mapped: &mut Steps<L>,
) -> Result<(), AllocError>
    requires walk { IsClearWalk walk.old }
    requires index { index.now ≡ walk.old.walker.desc }
    requires order { BeginAfter 0 changed.now }
    requires same { (a b : ℕ) → start ≤ a → list_any (meets a b) changed.now ≡ list_any (meets a b) (replaced walk.old.walker.desc) }
    requires room { new_size counted walk.old.walker.desc < 2 ^ 32 }
    requires chunk { IsChunk T.rules start (stretch grown chunk.now.value) }
    requires inside { EndWithin (old_size walk.old.walker.desc) (map (shift start) (stretch grown chunk.now.value).ranges) }
    requires ascending { Ascend walk.old.walker.reached (map (shift start) (stretch grown chunk.now.value).ranges) }
    ensures run { IfOk result (λ _. run.new.items ≡ run.old.items ++ filter_map (moved T.rules walk.old.walker.desc) (map (shift start) (stretch grown chunk.now.value).ranges)) }
    ensures clear { IfOk result (λ _. IsClearWalk walk.new) }
    ensures desc { IfOk result (λ _. walk.new.walker.desc ≡ walk.old.walker.desc) }
    ensures walk { IfOk result (λ _. (later : _) → Ascend walk.old.walker.reached (map (shift start) (stretch grown chunk.now.value).ranges ++ later) → Ascend walk.new.walker.reached later) }
    ensures cost { mapped.new ≤ mapped.old + length (stretch grown chunk.now.value).ranges }
{
    let alloc = *run.allocator();
    let len = chunk.ranges.len();
    reserve(run, len, len.saturating_add(more))?;
    let mut left = changed;
    let mut rest = chunk.ranges.as_slice();
    while let Some((first, others)) = rest.split_first() {
        mapped.tick();
        let range = RangeRef {
            from: first.from + start,
            to: first.to + grown + start,
            value: &first.value,
        };
        left = ranges_from(left, range.from);
        match range.moved_among(alloc, left, walk, index)? {
            Some(moved) => run.push(moved)?,
            None => {}
        }
        rest = move_clear(alloc, start, grown, others, walk, run, mapped)?;
    }
    Ok(())
}

/// Puts the first of some ranges, which count from the place `start` and end later by `grown`, after a run of others, each moved as far
/// as the last clear place of a walk, and gives those that are left: from the first on that begins before that place, or ends at or
/// after the start of the next replaced range, or is empty with an end side less than its start side. No contract says how many are
/// moved. `Err`: out of memory.
fn move_clear<'b, T: RangeValue, L: Ledger>(
    alloc: Global,
    start: u32,
    grown: u32,
    ranges: &'b [Ranged<T>],
    walk: &ClearWalk<'_>,
    run: &mut Vec<Ranged<T>>,
    mapped: &mut Steps<L>,
) -> Result<&'b [Ranged<T>], AllocError>
    requires walk { IsClearWalk walk.now }
    requires room { new_size counted walk.now.walker.desc < 2 ^ 32 }
    requires within { AreWithin (old_size walk.now.walker.desc) start (map (grow grown) ranges.now) }
    ensures moved { IfOk result (λ rest. AreMoved T.rules walk.now.walker.desc start (map (grow grown) ranges.now) (map (grow grown) rest.now) run.old.items run.new.items mapped.old mapped.new) }
    ensures cost { mapped.new ≤ mapped.old + length ranges.now }
{
    let Some(last) = &walk.last else {
        return Ok(ranges);
    };
    let mut rest = ranges;
    while let Some((range, others)) = rest.split_first() {
        let seen = RangeRef {
            from: range.from + start,
            to: range.to + grown + start,
            value: &range.value,
        };
        if seen.is_turned() || !last.carries(seen.from, seen.to) {
            return Ok(rest);
        }
        mapped.tick();
        let value = range.value.try_copy(alloc)?;
        run.push(Ranged {
            from: last.carry(seen.from),
            to: last.carry(seen.to),
            value,
        })?;
        rest = others;
    }
    Ok(rest)
}
