ghost use Rattle.std.specs.Prelude.{IfOk, [], length, map, ◌++◌, ◌∷◌, ◌≡◌};
ghost use Rattle.selection.specs.Selections.{all_joined, joined, main_of, marked_from, range_of};

use crate::range::{Range, Ranges};
use smallvec::SmallVec;
use stable_order::Ranked;
use std::alloc::{AllocError, Global};
use std::cmp::Ordering;

/// A range with whether it is the main one.
#[derive(Clone, Copy, Drop)]
pub(crate) struct Marked {
    pub(crate) range: Range,
    pub(crate) is_main: bool,
}

impl Marked {
    /// It and a range that meets it as one.
    fn joined(&self, next: &Marked) -> Marked
        ensures { result ≡ joined self.now next.now }
    {
        Marked {
            range: self.range.joined(&next.range),
            is_main: self.is_main || next.is_main,
        }
    }
}

/// Ranges rank by where they begin.
impl Ranked for Marked {
    ghost use Rattle.selection.specs.Selections.{begins_before};
    ghost use Rattle.selection.specs.Ranges.{low};
    ghost use Rattle.selection.specs.declared.marked.Marked.{Marked};
    ghost use Rattle.std.proofs.lemmas.List.MinMax.{IsStrictWeakOrder-by_number};

    ghost before = { begins_before };

    fn compare(&self, other: &Marked) -> Ordering {
        self.range.from().cmp(&other.range.from())
    }

    ghost is_order = { IsStrictWeakOrder-by_number (λ (m : Marked). low m.range) };
}

/// The ranges, with the one of this index marked as the main one.
pub(crate) fn with_main(
    alloc: Global,
    ranges: &[Range],
    main: usize,
) -> Result<Vec<Marked>, AllocError>
    ensures { IfOk result (λ marks. marks.items ≡ marked_from 0 main ranges.now) }
{
    let mut marks = Vec::new(alloc);
    for (i, range) in ranges.iter().enumerate() {
        marks.push(Marked {
            range: *range,
            is_main: i == main,
        })?;
    }
    Ok(marks)
}

/// Sorted ranges with those joined that meet, from left to right.
pub(crate) fn join_all(alloc: Global, ranges: &[Marked]) -> Result<Vec<Marked>, AllocError>
    ensures { IfOk result (λ done. done.items ≡ all_joined ranges.now) }
{
    let mut done = Vec::new(alloc);
    let Some((first, rest)) = ranges.split_first() else {
        return Ok(done);
    };
    let mut last = *first;
    for next in rest {
        if last.range.meets(&next.range) {
            last = last.joined(next);
        } else {
            done.push(last)?;
            last = *next;
        }
    }
    done.push(last)?;
    Ok(done)
}

/// The ranges alone.
pub(crate) fn ranges_of(alloc: Global, marks: &[Marked]) -> Result<Ranges, AllocError>
    ensures { IfOk result (λ ranges. ranges.items ≡ map range_of marks.now) }
{
    let mut ranges = SmallVec::new(alloc);
    for mark in marks {
        ranges.push(mark.range)?;
    }
    Ok(ranges)
}

/// The index of the first range that is marked as the main one.
pub(crate) fn main_of(marks: &[Marked]) -> usize
    ensures { result ≡ main_of marks.now }
{
    let mut index = 0;
    for mark in marks {
        if mark.is_main {
            return index;
        }
        index += 1;
    }
    index
}
