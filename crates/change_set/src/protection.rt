ghost use Rattle.std.specs.Prelude.{◌≡◌, ◌<◌, ◌≤◌, length, slice_index_or, IfOk, OnOk};
ghost use Rattle.change_desc.specs.Filter.{is_inside, is_protected};
ghost use Rattle.change_set.specs.Protected.{Apart, AreJoined, AreSorted, HasEnded, IsRun, Joins, StartBy};

use crate::protected_range::ProtectedRange;
use stable_order::sort_stably;
use std::alloc::{AllocError, Global};

/// Protected ranges in the order of their starts.
fn sorted(alloc: Global, given: &[(u32, u32)]) -> Result<Vec<ProtectedRange>, AllocError>
    ensures { IfOk result (λ sorted. AreSorted given.now sorted.items) }
{
    let mut ranges = Vec::new(alloc);
    for range in given {
        ranges.push(ProtectedRange {
            from: range.0,
            to: range.1,
        })?;
    }
    sort_stably(&mut ranges)?;
    Ok(ranges)
}

/// Puts a range after those that start before it, as one with the last where the two overlap or touch.
fn join(joined: &mut Vec<(u32, u32)>, range: ProtectedRange) -> Result<(), AllocError>
    requires apart { Apart 0 joined.old.items }
    requires starts { StartBy joined.old.items range.from }
    ensures { OnOk result (Joins joined.old.items joined.new.items (range.from, range.to)) }
{
    if range.to <= range.from {
        return Ok(());
    }
    match joined.pop() {
        None => joined.push((range.from, range.to))?,
        Some(last) => {
            if range.from <= last.1 {
                joined.push((last.0, last.1.max(range.to)))?;
            } else {
                joined.push(last)?;
                joined.push((range.from, range.to))?;
            }
        }
    }
    Ok(())
}

/// Protected ranges in order, those that overlap or touch as one, and none that is empty or reversed.
pub(crate) fn joined(alloc: Global, given: &[(u32, u32)]) -> Result<Vec<(u32, u32)>, AllocError>
    ensures { IfOk result (λ joined. AreJoined given.now joined.items) }
{
    let sorted = sorted(alloc, given)?;
    let mut joined = Vec::new(alloc);
    for range in &sorted {
        join(&mut joined, *range)?;
    }
    Ok(joined)
}

/// How many ranges end at or before a place, where so many are known to.
pub(crate) fn ended(ranges: &[(u32, u32)], known: usize, pos: u32) -> usize
    requires { HasEnded ranges.now known pos }
    ensures ended { HasEnded ranges.now result pos }
    ensures next { result < length ranges.now → pos < (slice_index_or ranges.now result (0, 0)).1 }
{
    let mut count = known;
    'ended: while count < ranges.len() && ranges[count].1 <= pos {
        count += 1;
    }
    count
}

/// Characters that are all protected or all not: where they end, and whether they are.
#[derive(Clone, Copy, Drop)]
pub(crate) struct Run {
    pub(crate) to: u32,
    pub(crate) is_protected: bool,
}

/// The characters from a place on that are all protected or all not, up to an end; so many ranges end at or before the place.
pub(crate) fn run_from(ranges: &[(u32, u32)], ended: usize, len: u32, pos: u32, end: u32) -> Run
    requires ended { HasEnded ranges.now ended pos }
    requires next { ended < length ranges.now → pos < (slice_index_or ranges.now ended (0, 0)).1 }
    requires some { pos < end }
    requires within { end ≤ len }
    ensures run { IsRun ranges.now len pos result.to end }
    ensures is_protected { result.is_protected ≡ is_protected ranges.now len pos }
{
    if ended >= ranges.len() {
        return Run {
            to: end,
            is_protected: false,
        };
    }
    let range = ranges[ended];
    if range.0 <= pos {
        Run {
            to: range.1.min(end),
            is_protected: true,
        }
    } else {
        Run {
            to: range.0.min(end),
            is_protected: false,
        }
    }
}

/// Whether a place is strictly inside protected text: the characters on both sides of it are protected. So many ranges end
/// at or before the place.
pub(crate) fn is_inside(ranges: &[(u32, u32)], ended: usize, len: u32, pos: u32) -> bool
    requires apart { Apart 0 ranges.now }
    requires ended { HasEnded ranges.now ended pos }
    requires next { ended < length ranges.now → pos < (slice_index_or ranges.now ended (0, 0)).1 }
    ensures { result ≡ is_inside ranges.now len pos }
{
    if pos >= len {
        return false;
    }
    if ended >= ranges.len() {
        return false;
    }
    ranges[ended].0 < pos
}
