ghost use Rattle.std.specs.Prelude.{◌≡◌, ◌≤◌};
ghost use Rattle.change_desc.specs.Sections.{old_size};
ghost use Rattle.selection.specs.Ranges.{high, is_backward, is_empty, low, meet, moved_range, ordered_range, joined_range};

use change_desc::PositionWalker;
use smallvec::SmallVec;

/// A range of a selection, from where it began to where it ends now (Reference Manual, SelectionRange). Both are positions in
/// a document, in characters; the head may lie before the anchor, and an empty range is a cursor. The default, a cursor at 0,
/// fills the unused places of a small vector.
#[derive(Clone, Copy, PartialEq, Eq, Debug, Drop, Default)]
pub struct Range {
    pub anchor: u32,
    pub head: u32,
}

/// Ranges of which two lie in the value itself; more lie on the heap.
pub(crate) type Ranges = SmallVec<Range, 2>;

impl Range {
    /// Its lesser end.
    pub fn from(&self) -> u32
        ensures { result ≡ low self.now }
    {
        self.anchor.min(self.head)
    }

    /// Its greater end.
    pub fn to(&self) -> u32
        ensures { result ≡ high self.now }
    {
        self.anchor.max(self.head)
    }

    /// Whether it is a cursor.
    pub fn is_empty(&self) -> bool
        ensures { result ≡ is_empty self.now }
    {
        self.anchor == self.head
    }

    /// Whether its head lies before its anchor.
    pub fn is_backward(&self) -> bool
        ensures { result ≡ is_backward self.now }
    {
        self.head < self.anchor
    }

    /// The range between two places, in a direction.
    fn ordered(from: u32, to: u32, backward: bool) -> Range
        ensures { result ≡ ordered_range from to backward }
    {
        if backward {
            Range {
                anchor: to,
                head: from,
            }
        } else {
            Range {
                anchor: from,
                head: to,
            }
        }
    }

    /// Whether it and a range that doesn't begin before it overlap, or touch where one is empty.
    pub(crate) fn meets(&self, next: &Range) -> bool
        ensures { result ≡ meet self.now next.now }
    {
        next.from() < self.to()
            || (next.from() == self.to() && (self.is_empty() || next.is_empty()))
    }

    /// It and a range that meets it as one, in the direction of the later.
    pub(crate) fn joined(&self, next: &Range) -> Range
        ensures { result ≡ joined_range self.now next.now }
    {
        Range::ordered(self.from(), self.to().max(next.to()), next.is_backward())
    }

    /// Where it lies after the changes of a walk, which hasn't come past its lesser end.
    pub(crate) fn map(&self, walker: &mut PositionWalker) -> Range
        requires inside { high self.now ≤ old_size walker.old.desc }
        requires ascending { walker.old.reached ≤ low self.now }
        ensures value { result ≡ moved_range walker.old.desc self.now }
        ensures walk { walker.new ≡ record { desc = walker.old.desc; reached = high self.now } }
    {
        if self.is_empty() {
            let place = walker.place_after(self.head, -1);
            return Range {
                anchor: place,
                head: place,
            };
        }
        let from = walker.place_after(self.from(), 1);
        let to = walker.place_after(self.to(), -1);
        if to < from {
            return Range {
                anchor: to,
                head: to,
            };
        }
        Range::ordered(from, to, self.is_backward())
    }
}
