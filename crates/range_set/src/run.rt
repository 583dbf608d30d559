ghost use Rattle.std.specs.Prelude.{[], false, ◌++◌, ◌+◌, ◌<◌, ◌^◌, ◌↔◌, ◌≡◌, IsTrue, length, map};
ghost use Rattle.std.specs.Iterator.{YieldsFirstBy};
ghost use Rattle.range_set.specs.PrivateChunks.{Fit, TakesSame, grow, shift};
ghost use Rattle.range_set.specs.Seen.{seen};

use crate::range_ref::RangeRef;
use crate::range_value::RangeValue;
use crate::ranged::Ranged;
use std::marker::Model;

/// Ranges that stand next to each other in a chunk at the place `start`, each of which ends later than the chunk says, by `grown`.
/// Contracts see those that are left.
#[derive(Drop)]
pub(crate) struct Run<'a, T: RangeValue> {
    start: u32,
    grown: u32,
    ranges: &'a [Ranged<T>],
}

impl<'a, T: RangeValue> Model for Run<'a, T> {
    ghost use Rattle.std.specs.Prelude.{List, map};
    ghost use Rattle.range_set.specs.declared.ranged.Ranged.{Ranged};
    ghost use Rattle.range_set.specs.PrivateChunks.{Fit, grow, shift};

    ghost Value = { List (Ranged T) };

    ghost view = { λ r. map (shift r.start) (map (grow r.grown) r.ranges.now) };

    ghost invariant = { λ r. Fit (map (shift r.start) (map (grow r.grown) r.ranges.now)) };
}

impl<'a, T: RangeValue> Run<'a, T> {
    /// The run without ranges.
    pub(crate) fn empty() -> Run<'a, T>
        ensures { result ≡ [] }
    {
        Run {
            start: 0,
            grown: 0,
            ranges: &[],
        }
    }

    /// These ranges, which count from the place `start`, each of which ends later by `grown`.
    pub(crate) fn over(start: u32, grown: u32, ranges: &'a [Ranged<T>]) -> Run<'a, T>
        requires { Fit (map (shift start) (map (grow grown) ranges.now)) }
        ensures { result ≡ map (shift start) (map (grow grown) ranges.now) }
    {
        Run {
            start,
            grown,
            ranges,
        }
    }

    /// Whether no range is left.
    pub(crate) fn is_empty(&self) -> bool
        ensures { IsTrue result ↔ (self.now ≡ []) }
    {
        self.ranges.is_empty()
    }

    /// Takes the first range.
    pub(crate) fn next(&mut self) -> Option<RangeRef<'a, T>>
        ensures { YieldsFirstBy seen (λ s. s) self.old result self.new }
    {
        let (first, rest) = self.ranges.split_first()?;
        self.ranges = rest;
        Some(RangeRef {
            from: self.start + first.from,
            to: self.start + (first.to + self.grown),
            value: &first.value,
        })
    }

    /// Whether both begin with equal ranges, as many as both have: these are taken.
    pub(crate) fn take_same(&mut self, other: &mut Run<'_, T>) -> bool
        ensures same { IsTrue result → TakesSame self.old other.old self.new other.new }
        ensures differ { result ≡ false → (xs ys : _) → self.old ++ xs ≡ other.old ++ ys → ⊥ }
    {
        let count = self.ranges.len().min(other.ranges.len());
        let (left, left_rest) = self.ranges.split_at(count);
        let (right, right_rest) = other.ranges.split_at(count);
        if !same_at(
            self.start,
            self.grown,
            left,
            other.start,
            other.grown,
            right,
        ) {
            return false;
        }
        self.ranges = left_rest;
        other.ranges = right_rest;
        true
    }
}

/// Whether as many ranges are equal at their places: those of `left` count from the place `left_start`, those of `right` from
/// `right_start`, and each ends later by `left_grown` or `right_grown`.
fn same_at<T: RangeValue>(
    left_start: u32,
    left_grown: u32,
    left: &[Ranged<T>],
    right_start: u32,
    right_grown: u32,
    right: &[Ranged<T>],
) -> bool
    requires left_fits { Fit (map (shift left_start) (map (grow left_grown) left.now)) }
    requires right_fits { Fit (map (shift right_start) (map (grow right_grown) right.now)) }
    requires as_many { length left.now ≡ length right.now }
    ensures { IsTrue result ↔ (map (shift left_start) (map (grow left_grown) left.now) ≡ map (shift right_start) (map (grow right_grown) right.now)) }
{
    for (a, b) in left.iter().zip(right) {
        if !is_same(left_start, left_grown, a, right_start, right_grown, b) {
            return false;
        }
    }
    true
}

/// Whether two ranges are equal at their places.
fn is_same<T: RangeValue>(
    left_start: u32,
    left_grown: u32,
    left: &Ranged<T>,
    right_start: u32,
    right_grown: u32,
    right: &Ranged<T>,
) -> bool
    requires left_from { left.now.from + left_start < 2 ^ 32 }
    requires left_to { left.now.to + left_grown + left_start < 2 ^ 32 }
    requires right_from { right.now.from + right_start < 2 ^ 32 }
    requires right_to { right.now.to + right_grown + right_start < 2 ^ 32 }
    ensures { IsTrue result ↔ (shift left_start (grow left_grown left.now) ≡ shift right_start (grow right_grown right.now)) }
{
    left.from + left_start == right.from + right_start
        && left.to + left_grown + left_start == right.to + right_grown + right_start
        && left.value.same(&right.value)
}
