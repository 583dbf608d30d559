ghost use Rattle.std.specs.Prelude.{◌≡◌, filter};
ghost use Rattle.std.specs.Iterator.{YieldsFirstBy, item_count};
ghost use Rattle.range_set.specs.PrivateChunks.{Ascend};
ghost use Rattle.range_set.specs.Seen.{seen};
ghost use Rattle.range_set.specs.Updating.{overlaps};

use crate::group_cursor::GroupCursor;
use crate::iter::Iter;
use crate::range_ref::RangeRef;
use crate::range_value::RangeValue;
use std::marker::Model;

/// The ranges of a set that overlap or touch a span, in order. Contracts see it as those that are left. Pages, groups and
/// chunks whose hull ends before the span are passed over whole, and the first range that begins past the span is the end.
#[derive(Drop)]
pub struct Between<'a, T: RangeValue> {
    ranges: Iter<'a, T>,
    from: u32,
    to: u32,
}

impl<'a, T: RangeValue> Model for Between<'a, T> {
    ghost use Rattle.std.specs.Prelude.{List, filter};
    ghost use Rattle.range_set.specs.declared.ranged.Ranged.{Ranged};
    ghost use Rattle.range_set.specs.PrivateChunks.{Ascend};
    ghost use Rattle.range_set.specs.Updating.{overlaps};

    ghost Value = { List (Ranged T) };

    ghost view = { λ s. filter (overlaps s.from s.to) s.ranges };

    ghost invariant = { λ s. Ascend 0 s.ranges };
}

impl<'a, T: RangeValue> Between<'a, T> {
    /// Those of these ranges that overlap or touch the span from one place to another.
    pub(crate) fn among(ranges: Iter<'a, T>, from: u32, to: u32) -> Between<'a, T>
        requires { Ascend 0 ranges }
        ensures { result ≡ filter (overlaps from to) ranges.entry }
    {
        Between { ranges, from, to }
    }
}

impl<'a, T: RangeValue> Iterator for Between<'a, T> {
    type Item = RangeRef<'a, T>;

    ghost next_gives = { YieldsFirstBy seen (λ s. s) };

    ghost remaining = { item_count (λ s. s) };

    fn next(&mut self) -> Option<RangeRef<'a, T>> {
        loop {
            self.ranges.pass_chunks(self.from);
            let range = self.ranges.next()?;
            if self.to < range.from {
                self.ranges = Iter::over(GroupCursor::over(&[]));
                return None;
            }
            if self.from <= range.to {
                return Some(range);
            }
        }
    }
}
