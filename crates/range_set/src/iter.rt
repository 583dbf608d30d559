ghost use Rattle.std.specs.Prelude.{◌↔◌, ◌≡◌, ◌≤◌, ℕ, IsTrue, filter, length};
ghost use Rattle.std.specs.Iterator.{YieldsFirstBy, item_count};
ghost use Rattle.range_set.specs.Points.{points_of};
ghost use Rattle.range_set.specs.PrivateChunks.{Ascend, flat, spread};
ghost use Rattle.range_set.specs.Seen.{seen};
ghost use Rattle.range_set.specs.Updating.{overlaps};

use crate::chunk_iter::ChunkIter;
use crate::group_cursor::GroupCursor;
use crate::range_ref::RangeRef;
use crate::range_value::RangeValue;
use crate::run::Run;
use std::marker::Model;

/// The ranges of a set in order. Contracts see it as those that are left.
#[derive(Drop)]
pub struct Iter<'a, T: RangeValue> {
    /// Those that are left of the chunk that was reached.
    run: Run<'a, T>,
    others: ChunkIter<'a, T>,
}

impl<'a, T: RangeValue> Model for Iter<'a, T> {
    ghost use Rattle.std.specs.Prelude.{List};
    ghost use Rattle.range_set.specs.declared.ranged.Ranged.{Ranged};

    ghost Value = { List (Ranged T) };

    ghost use Rattle.std.specs.Prelude.{◌++◌};
    ghost use Rattle.range_set.specs.PrivateChunks.{flat};

    ghost view = { λ s. s.run ++ flat s.others };
}

impl<'a, T: RangeValue> Iter<'a, T> {
    /// The ranges of these groups.
    pub(crate) fn over(groups: GroupCursor<'a, T>) -> Iter<'a, T>
        ensures { result ≡ flat (spread groups.entry) }
    {
        Iter {
            run: Run::empty(),
            others: ChunkIter::over(groups),
        }
    }

    /// Passes over pages, groups and chunks that come next and whose hull ends before a place.
    pub(crate) fn pass_chunks(&mut self, place: u32)
        ensures kept { (to : ℕ) → filter (overlaps place to) self.new ≡ filter (overlaps place to) self.old }
        ensures order { (n : ℕ) → Ascend n self.old → Ascend n self.new }
        ensures fewer { length self.new ≤ length self.old }
    {
        if self.run.is_empty() {
            self.others.pass_chunks(place);
        }
    }

    /// Passes over pages, groups and chunks that come next and have no range that stands for what it covers.
    pub(crate) fn pass_without_point(&mut self)
        ensures kept { points_of T.rules self.new ≡ points_of T.rules self.old }
        ensures fewer { length self.new ≤ length self.old }
    {
        if self.run.is_empty() {
            self.others.pass_without_point();
        }
    }
}

impl<'a, T: RangeValue> Iterator for Iter<'a, T> {
    type Item = RangeRef<'a, T>;

    ghost next_gives = { YieldsFirstBy seen (λ s. s) };

    ghost remaining = { item_count (λ s. s) };

    fn next(&mut self) -> Option<RangeRef<'a, T>> {
        if self.run.is_empty() {
            self.run = self.others.next_run();
        }
        self.run.next()
    }
}

/// Whether both have the same ranges. They are compared slice by slice, each as long as neither of two chunks ends.
pub(crate) fn same_ranges<'a, 'b, T: RangeValue>(
    left: ChunkIter<'a, T>,
    right: ChunkIter<'b, T>,
) -> bool
    ensures { IsTrue result ↔ (flat left.entry ≡ flat right.entry) }
{
    let mut left = left;
    let mut right = right;
    let mut left_run = left.next_run();
    let mut right_run = right.next_run();
    loop {
        if left_run.is_empty() {
            return right_run.is_empty();
        }
        if right_run.is_empty() {
            return false;
        }
        if !left_run.take_same(&mut right_run) {
            return false;
        }
        left_run = left.refilled(left_run);
        right_run = right.refilled(right_run);
    }
}
