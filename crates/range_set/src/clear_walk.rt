ghost use Rattle.std.specs.Prelude.{◌&&◌, ◌+◌, ◌-◌, ◌≡◌, ◌≤◌, ◌<◌, ◌^◌, ℕ, false, nat_le, not, true};
ghost use Rattle.std.specs.List.{list_any};
ghost use Rattle.change_desc.specs.Meeting.{BeginAfter, EndsAtOrAfter};
ghost use Rattle.change_desc.specs.Places.{place_after};
ghost use Rattle.change_desc.specs.Ranges.{meets, replaced};
ghost use Rattle.change_desc.specs.Sections.{counted, new_size, old_size};
ghost use Rattle.range_set.specs.PrivateMoving.{IsClearWalk};

use change_desc::{ChangedRange, Desc, PositionWalker, first_meets};

/// A place of the old text, in characters, that no replaced range meets, where it goes, and the replaced ranges from the first on
/// that doesn't end before it.
#[derive(Drop)]
pub(crate) struct ClearPlace<'a> {
    pub(crate) from: u32,
    pub(crate) to: u32,
    pub(crate) changed: &'a [ChangedRange],
}

impl ClearPlace<'_> {
    /// Whether a range is moved as a whole as far as this place: it begins at this place or after it, and no replaced range meets what
    /// lies from this place to its end.
    pub(crate) fn carries(&self, from: u32, to: u32) -> bool
        requires order { BeginAfter 0 self.now.changed.now }
        requires first { EndsAtOrAfter self.now.from self.now.changed.now }
        ensures { result ≡ (nat_le self.now.from from && not (list_any (meets self.now.from to) self.now.changed.now)) }
    {
        self.from <= from && !first_meets(self.changed, self.from, to)
    }

    /// Where a place goes that is moved as far as this one.
    pub(crate) fn carry(&self, pos: u32) -> u32
        requires after { self.now.from ≤ pos }
        requires fits { self.now.to + (pos - self.now.from) < 2 ^ 32 }
        ensures { result ≡ self.now.to + (pos - self.now.from) }
    {
        self.to + (pos - self.from)
    }
}

/// A walk over changes that keeps the last place that it looked for in them and that no replaced range meets: all from it up to the
/// next replaced range go as far.
#[derive(Drop)]
pub(crate) struct ClearWalk<'a> {
    pub(crate) walker: PositionWalker<'a>,
    pub(crate) last: Option<ClearPlace<'a>>,
}

impl<'a> ClearWalk<'a> {
    /// A walk over changes from their start.
    pub(crate) fn new(changes: &'a Desc) -> ClearWalk<'a>
        ensures walk { IsClearWalk result }
        ensures start { result.walker ≡ record { desc = changes.now; reached = 0 } }
    {
        ClearWalk {
            walker: PositionWalker::new(changes),
            last: None,
        }
    }

    /// Where a place goes that no replaced range meets and that isn't less than the last one looked for in the changes. The replaced
    /// ranges are given from the first on that doesn't end before it.
    #[inline(always)]
    pub(crate) fn place_after(&mut self, pos: u32, changed: &'a [ChangedRange]) -> u32
        requires walk { IsClearWalk self.old }
        requires inside { pos ≤ old_size self.old.walker.desc }
        requires ascending { self.old.walker.reached ≤ pos }
        requires clear { list_any (meets pos pos) (replaced self.old.walker.desc) ≡ false }
        requires order { BeginAfter 0 changed.now }
        requires first { EndsAtOrAfter pos changed.now }
        requires same { (a b : ℕ) → pos ≤ a → list_any (meets a b) changed.now ≡ list_any (meets a b) (replaced self.old.walker.desc) }
        requires room { new_size counted self.old.walker.desc < 2 ^ 32 }
        ensures walk { IsClearWalk self.new }
        ensures value { result ≡ place_after self.old.walker.desc pos true }
        ensures desc { self.new.walker.desc ≡ self.old.walker.desc }
        ensures reached { self.new.walker.reached ≤ pos }
    {
        if let Some(last) = &self.last {
            if last.carries(pos, pos) {
                return last.carry(pos);
            }
        }
        let to = self.walker.place_after(pos, -1);
        self.last = Some(ClearPlace {
            from: pos,
            to,
            changed,
        });
        to
    }
}
