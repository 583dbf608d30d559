ghost use Rattle.std.specs.Prelude.{◌≡◌};
ghost use Rattle.std.specs.Iterator.{YieldsFirstBy, item_count};
ghost use Rattle.range_set.specs.Points.{points_of};
ghost use Rattle.range_set.specs.Seen.{seen};

use crate::iter::Iter;
use crate::range_ref::RangeRef;
use crate::range_value::RangeValue;
use std::marker::Model;

/// The ranges of a set that stand for what they cover, in order. Contracts see it as those that are left. Pages, groups
/// and chunks without such a range are passed over whole.
#[derive(Drop)]
pub struct Points<'a, T: RangeValue> {
    ranges: Iter<'a, T>,
}

impl<'a, T: RangeValue> Model for Points<'a, T> {
    ghost use Rattle.std.specs.Prelude.{List};
    ghost use Rattle.range_set.specs.Points.{points_of};
    ghost use Rattle.range_set.specs.declared.ranged.Ranged.{Ranged};

    ghost Value = { List (Ranged T) };

    ghost view = { λ s. points_of T.rules s.ranges };
}

impl<'a, T: RangeValue> Points<'a, T> {
    /// Those of these ranges that stand for what they cover.
    pub(crate) fn among(ranges: Iter<'a, T>) -> Points<'a, T>
        ensures { result ≡ points_of T.rules ranges.entry }
    {
        Points { ranges }
    }
}

impl<'a, T: RangeValue> Iterator for Points<'a, T> {
    type Item = RangeRef<'a, T>;

    ghost next_gives = { YieldsFirstBy seen (λ s. s) };

    ghost remaining = { item_count (λ s. s) };

    #[inline(always)]
    fn next(&mut self) -> Option<RangeRef<'a, T>> {
        loop {
            self.ranges.pass_without_point();
            let range = self.ranges.next()?;
            if range.value.is_point() {
                return Some(range);
            }
        }
    }
}
