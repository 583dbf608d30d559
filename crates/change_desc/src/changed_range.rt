ghost use Rattle.std.specs.Prelude.{◌≡◌};
ghost use Rattle.change_desc.specs.Ranges.{covering, meets, touch_of};

use crate::touch::Touch;
use smallvec::SmallVec;

/// Replaced ranges, from left to right. Two lie in the list itself, since most changes replace one; more lie on the heap.
pub type ChangedRanges = SmallVec<ChangedRange, 2>;

/// A range that was replaced: where it stood in the old text, from `from_a` to `to_a`, and where what stands for it is in the
/// new text, from `from_b` to `to_b`. Positions are in characters; an end is the place after the last character. The default, an
/// empty range at 0, fills the unused places of a small vector.
#[derive(Clone, Copy, PartialEq, Eq, Default, Debug, Drop)]
pub struct ChangedRange {
    pub from_a: u32,
    pub to_a: u32,
    pub from_b: u32,
    pub to_b: u32,
}

impl ChangedRange {
    /// Whether it overlaps or touches a range of the old text.
    pub(crate) fn meets(self, from: u32, to: u32) -> bool
        ensures { result ≡ meets from to self }
    {
        self.from_a <= to && from <= self.to_a
    }

    /// How it meets a range of the old text that it overlaps or touches.
    pub(crate) fn touch(self, from: u32, to: u32) -> Touch
        ensures { result ≡ touch_of from to self }
    {
        if self.from_a < from && to < self.to_a {
            Touch::Cover
        } else {
            Touch::Yes
        }
    }

    /// The range from its start to the end of another.
    pub(crate) fn through(self, next: ChangedRange) -> ChangedRange
        ensures { result ≡ covering self next }
    {
        ChangedRange {
            from_a: self.from_a,
            to_a: next.to_a,
            from_b: self.from_b,
            to_b: next.to_b,
        }
    }
}
