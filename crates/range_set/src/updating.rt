ghost use Rattle.std.specs.Prelude.{IfOk, IsTrue, None, true, filter, length, map, ◌++◌, ◌+◌, ◌-◌, ◌<◌, ◌≤◌, ◌^◌, ◌≡◌};
ghost use Rattle.range_set.specs.Order.{before, first_fault};
ghost use Rattle.range_set.specs.PrivateChunks.{AreChunks, AreGroups, AreGroupsOf, Ascend, IsChunk, content, flat, shift, spread};
ghost use Rattle.range_set.specs.PrivateUpdates.{BeginPast, BeginUnder, IsBeyond, KeepsPart, TakesBefore};
ghost use Rattle.range_set.specs.Updating.{AnswersAs, updated};

use crate::chunk::{FEW_RANGES, MAX_RANGES, MAX_SHARED_LEN, Placed};
use crate::chunk_builder::ChunkBuilder;
use crate::group_builder::GroupBuilder;
use crate::group_cursor::GroupCursor;
use crate::group_list::GroupList;
use crate::opening::{opened_by, share_each};
use crate::parts::reserve;
use crate::range_ref::RangeRef;
use crate::range_value::RangeValue;
use crate::ranged::Ranged;
use crate::sorting::put_sorted;
use std::alloc::{AllocError, Global};
use std::collections::VecDeque;

/// The groups of the ranges of others and of added ones, which stand in order, and how many ranges they have. Groups all of whose
/// ranges begin before the first added one, or after the last one, are shared, but for one that what is added joins. `Err`: out of
/// memory.
pub(crate) fn added_groups<T: RangeValue>(
    alloc: Global,
    groups: GroupCursor<'_, T>,
    add: Vec<Ranged<T>>,
) -> Result<(GroupList<T>, usize), AllocError>
    requires groups { AreGroups T.rules groups }
    requires order { first_fault T.rules (flat (spread groups)) ≡ None }
    requires added { first_fault T.rules add.items ≡ None }
    requires some { 1 ≤ length add.items }
    requires room { length (flat (spread groups)) + length add.items < 2 ^ 64 }
    ensures groups { IfOk result (λ made. AreGroupsOf T.rules made.0 made.1) }
    ensures order { IfOk result (λ made. first_fault T.rules (flat (spread made.0)) ≡ None) }
    ensures ranges { IfOk result (λ made. flat (spread made.0) ≡ updated T.rules (λ _. true) (flat (spread groups.entry)) add.items) }
{
    let (Some(first), Some(last)) = (add.first(), add.last()) else {
        unreachable!()
    };
    let (first, last) = (first.from, last.from);
    let mut builder = GroupBuilder::for_pages(alloc, groups.pages_left(), groups.groups_next())?;
    let rest = builder.share_before(groups, first)?;
    let (chunks, rest) = opened_by(alloc, rest, last)?;
    let chunks = with_all(alloc, chunks.as_slice(), add)?;
    builder.put_all(chunks)?;
    builder.share_all(rest)?;
    builder.finish()
}

/// The chunks of the ranges of others and of added ones. Only those around the added ones are looked at one by one. `Err`: out of
/// memory.
fn with_all<T: RangeValue>(
    alloc: Global,
    chunks: &[Placed<T>],
    add: Vec<Ranged<T>>,
) -> Result<Vec<Placed<T>>, AllocError>
    requires chunks { AreChunks T.rules chunks.now }
    requires order { first_fault T.rules (flat chunks.now) ≡ None }
    requires added { first_fault T.rules add.items ≡ None }
    requires some { 1 ≤ length add.items }
    ensures chunks { IfOk result (λ made. AreChunks T.rules made.items) }
    ensures order { IfOk result (λ made. first_fault T.rules (flat made.items) ≡ None) }
    ensures ranges { IfOk result (λ made. flat made.items ≡ updated T.rules (λ _. true) (flat chunks.now) add.items) }
{
    let (Some(first), Some(last)) = (add.first(), add.last()) else {
        unreachable!()
    };
    let (before, rest) = parted_under(chunks, first.from);
    let (around, after) = parted_past(rest, last.from);
    let mut made = Vec::with_capacity(alloc, chunks.len().saturating_add(1))?;
    share_each(0, 0, before, &mut made)?;
    let mut updated = updated_chunks(alloc, around, add, &|_range: &RangeRef<'_, T>| true)?;
    made.append(&mut updated)?;
    share_each(0, 0, after, &mut made)?;
    Ok(made)
}

/// Chunks, parted: the ranges of the first part begin before a place. The last chunk of which that is clear stands in the second
/// part, since what is added may join it.
fn parted_under<T: RangeValue>(chunks: &[Placed<T>], place: u32) -> (&[Placed<T>], &[Placed<T>])
    requires chunks { AreChunks T.rules chunks.now }
    requires ascend { Ascend 0 (flat chunks.now) }
    ensures parts { chunks.now ≡ result.0.now ++ result.1.now }
    ensures under { BeginUnder place (flat result.0.now) }
{
    let begun = chunks.partition_point(|placed| placed.start < place);
    chunks.split_at(begun.saturating_sub(2))
}

/// Chunks, parted: the ranges of the second part begin after a place. The first chunk of which that is clear stands in the first
/// part, since what is added may join it.
fn parted_past<T: RangeValue>(chunks: &[Placed<T>], place: u32) -> (&[Placed<T>], &[Placed<T>])
    requires chunks { AreChunks T.rules chunks.now }
    requires ascend { Ascend 0 (flat chunks.now) }
    ensures parts { chunks.now ≡ result.0.now ++ result.1.now }
    ensures past { BeginPast place (flat result.1.now) }
{
    let begun = chunks.partition_point(|placed| placed.start <= place);
    chunks.split_at(begun.saturating_add(1).min(chunks.len()))
}

/// The chunks of the ranges of others that a test allows and of added ones, which stand in order.
/// A chunk whose ranges all stay, and among which no added one belongs, is shared, unless it is a small one that `is_joined` names;
/// of the others the ranges that stay are copied. `Err`: out of memory.
pub(crate) fn updated_chunks<T: RangeValue, F: Fn(&RangeRef<'_, T>) -> bool>(
    alloc: Global,
    chunks: &[Placed<T>],
    add: Vec<Ranged<T>>,
    keep: &F,
) -> Result<Vec<Placed<T>>, AllocError>
    requires callable { F.IsAlwaysCallable keep.now }
    requires chunks { AreChunks T.rules chunks.now }
    requires order { first_fault T.rules (flat chunks.now) ≡ None }
    requires added { first_fault T.rules add.items ≡ None }
    ensures chunks { IfOk result (λ made. AreChunks T.rules made.items) }
    ensures order { IfOk result (λ made. first_fault T.rules (flat made.items) ≡ None) }
    ensures few { IfOk result (λ made. length (flat made.items) ≤ length (flat chunks.now) + length add.items) }
    ensures ranges { IfOk result (λ made. (p : _) → AnswersAs F.Fn keep.now p → flat made.items ≡ updated T.rules p (flat chunks.now) add.items) }
{
    let mut added = VecDeque::from_vec(add);
    let mut builder = ChunkBuilder::new(alloc);
    let mut run = Vec::new(alloc);
    let mut following = chunks.iter();
    let _ = following.next();
    for placed in chunks {
        let next = following.next();
        take_before(placed, &mut added, &mut run)?;
        if is_apart(placed, &run, &added, next) && stays_whole(placed, keep) {
            put_sorted(&mut run, &mut builder)?;
            builder.share(placed.start, placed)?;
        } else {
            keep_each(alloc, placed, keep, &mut run)?;
        }
    }
    let mut others = Vec::from(added);
    run.append(&mut others)?;
    put_sorted(&mut run, &mut builder)?;
    Ok(builder.finish())
}

/// Whether an added range belongs before a range of a chunk at a place.
#[inline(always)]
fn is_before<T: RangeValue>(added: &Ranged<T>, start: u32, range: &Ranged<T>) -> bool
    requires { start + range.now.from < 2 ^ 32 }
    ensures { result ≡ before T.rules added.now (shift start range.now) }
{
    let from = start + range.from;
    added.from < from || (added.from == from && added.value.start_side() < range.value.start_side())
}

/// Puts the added ranges that belong before the first of a chunk after a run. `Err`: out of memory.
#[inline(always)]
fn take_before<T: RangeValue>(
    placed: &Placed<T>,
    added: &mut VecDeque<Ranged<T>>,
    run: &mut Vec<Ranged<T>>,
) -> Result<(), AllocError>
    requires { IsChunk T.rules placed.now.start (content placed.now) }
    ensures { IfOk result (λ _. TakesBefore T.rules (map (shift placed.now.start) (content placed.now).ranges) run.old.items added.old.items run.new.items added.new.items) }
{
    let Some(first) = placed.chunk.ranges.first() else {
        return Ok(());
    };
    while let Some(next) = added.front() {
        if !is_before(next, placed.start, first) {
            return Ok(());
        }
        if let Some(taken) = added.pop_front() {
            run.push(taken)?;
        }
    }
    Ok(())
}

/// Whether a chunk stays apart from added ranges: none belongs before its last one, and it isn't joined with what is touched.
#[inline(always)]
fn is_apart<T: RangeValue>(
    placed: &Placed<T>,
    run: &[Ranged<T>],
    added: &VecDeque<Ranged<T>>,
    next: Option<&Placed<T>>,
) -> bool
    requires { IsChunk T.rules placed.now.start (content placed.now) }
    ensures { IsTrue result → IsBeyond T.rules (map (shift placed.now.start) (content placed.now).ranges) added.now.items }
{
    is_beyond(placed, added) && !is_joined(placed, run, added, next)
}

/// Whether a chunk is a small one and no long range's own, and ranges of a run that isn't a full chunk stand before it, or an added
/// range belongs after it and by the end of the next chunk. No contract speaks of this: it only decides which chunks are shared.
fn is_joined<T: RangeValue>(
    placed: &Placed<T>,
    run: &[Ranged<T>],
    added: &VecDeque<Ranged<T>>,
    next: Option<&Placed<T>>,
) -> bool {
    let is_open = !run.is_empty() && run.len() < MAX_RANGES;
    placed.chunk.ranges.len() <= FEW_RANGES
        && placed.grown <= MAX_SHARED_LEN
        && (is_open || is_within_next(added, next))
}

/// Whether there is an added range, and it begins by the end of the next chunk or there is none.
fn is_within_next<T: RangeValue>(added: &VecDeque<Ranged<T>>, next: Option<&Placed<T>>) -> bool {
    match (added.front(), next) {
        (Some(range), Some(next)) => is_within(range.from, next),
        (Some(_), None) => true,
        (None, _) => false,
    }
}

/// Whether a place lies before the end of the hull of a chunk, or there. No contract speaks of this: it only decides which chunks are
/// shared.
fn is_within<T>(place: u32, placed: &Placed<T>) -> bool {
    place.saturating_sub(placed.start) <= placed.chunk.reach.saturating_add(placed.grown)
}

/// Whether no added range belongs before the last of a chunk.
fn is_beyond<T: RangeValue>(placed: &Placed<T>, added: &VecDeque<Ranged<T>>) -> bool
    requires { IsChunk T.rules placed.now.start (content placed.now) }
    ensures { IsTrue result → IsBeyond T.rules (map (shift placed.now.start) (content placed.now).ranges) added.now.items }
{
    match (added.front(), placed.chunk.ranges.last()) {
        (Some(next), Some(last)) => !is_before(next, placed.start, last),
        _ => true,
    }
}

/// Whether a chunk stays whole: a test allows each of its ranges.
fn stays_whole<T: RangeValue, F: Fn(&RangeRef<'_, T>) -> bool>(placed: &Placed<T>, keep: &F) -> bool
    requires callable { F.IsAlwaysCallable keep.now }
    requires chunk { IsChunk T.rules placed.now.start (content placed.now) }
    ensures { (p : _) → AnswersAs F.Fn keep.now p → IsTrue result → filter p (map (shift placed.now.start) (content placed.now).ranges) ≡ map (shift placed.now.start) (content placed.now).ranges }
{
    for range in &placed.chunk.ranges {
        let range = RangeRef {
            from: range.from + placed.start,
            to: range.to + placed.grown + placed.start,
            value: &range.value,
        };
        if !keep(&range) {
            return false;
        }
    }
    true
}

/// Puts copies of the ranges of a chunk that a test allows after a run. `Err`: out of memory.
fn keep_each<T: RangeValue, F: Fn(&RangeRef<'_, T>) -> bool>(
    alloc: Global,
    placed: &Placed<T>,
    keep: &F,
    run: &mut Vec<Ranged<T>>,
) -> Result<(), AllocError>
    requires callable { F.IsAlwaysCallable keep.now }
    requires chunk { IsChunk T.rules placed.now.start (content placed.now) }
    ensures kept { IfOk result (λ _. (p : _) → AnswersAs F.Fn keep.now p → run.new.items ≡ run.old.items ++ filter p (map (shift placed.now.start) (content placed.now).ranges)) }
    ensures part { IfOk result (λ _. KeepsPart (map (shift placed.now.start) (content placed.now).ranges) run.old.items run.new.items) }
{
    // Mostly one range is added, and belongs among these or after them.
    reserve(run, placed.chunk.ranges.len().saturating_add(1), 0)?;
    for range in &placed.chunk.ranges {
        let range = RangeRef {
            from: range.from + placed.start,
            to: range.to + placed.grown + placed.start,
            value: &range.value,
        };
        if keep(&range) {
            run.push(range.try_copy(alloc)?)?;
        }
    }
    Ok(())
}
