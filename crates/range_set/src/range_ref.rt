ghost use Rattle.std.specs.Prelude.{◌≡◌, ◌↔◌, ◌≤◌, ◌<◌, ◌^◌, ℕ, IfOk, IsTrue};
ghost use Rattle.std.specs.List.{list_any};
ghost use Rattle.change_desc.specs.Meeting.{BeginAfter, EndsAtOrAfter};
ghost use Rattle.change_desc.specs.Ranges.{meets, replaced};
ghost use Rattle.change_desc.specs.Sections.{counted, new_size, old_size};
ghost use Rattle.range_set.specs.Mapping.{ends_unless_turned, is_turned, moved, new_ends, point_ends, span_ends};
ghost use Rattle.range_set.specs.PrivateMoving.{IsClearWalk};
ghost use Rattle.range_set.specs.Seen.{seen};

use crate::clear_walk::ClearWalk;
use crate::range_value::RangeValue;
use crate::ranged::Ranged;
use change_desc::{ChangedRange, MapMode, PositionIndex, PositionWalker, first_meets};
use std::alloc::{AllocError, Global};

/// A range of a set, with its value lent. Places are in characters.
#[derive(Drop)]
pub struct RangeRef<'a, T> {
    pub from: u32,
    pub to: u32,
    pub value: &'a T,
}

impl<'a, T: RangeValue> RangeRef<'a, T> {
    /// Whether both have the same ends and equal values.
    pub(crate) fn same(&self, other: &RangeRef<'_, T>) -> bool
        ensures { IsTrue result ↔ (seen self.now ≡ seen other.now) }
    {
        self.from == other.from && self.to == other.to && self.value.same(other.value)
    }

    /// The range with a copy of its value. `Err`: out of memory.
    pub(crate) fn try_copy(&self, alloc: Global) -> Result<Ranged<T>, AllocError>
        ensures { IfOk result (λ copy. copy ≡ seen self.now) }
    {
        let value = self.value.try_copy(alloc)?;
        Ok(Ranged {
            from: self.from,
            to: self.to,
            value,
        })
    }

    /// The range where the changes of a walk move it, unless they drop it; the walk comes to its start. Its end may lie far
    /// after, so it is looked for in the index of the same changes. `Err`: out of memory.
    fn moved(
        &self,
        alloc: Global,
        walker: &mut PositionWalker,
        index: &PositionIndex,
    ) -> Result<Option<Ranged<T>>, AllocError>
        requires index { index.now ≡ walker.old.desc }
        requires start { self.now.from ≤ old_size walker.old.desc }
        requires end { self.now.to ≤ old_size walker.old.desc }
        requires forward { self.now.from ≤ self.now.to }
        requires ascending { walker.old.reached ≤ self.now.from }
        ensures value { IfOk result (λ range. range ≡ moved T.rules walker.old.desc (seen self.now)) }
        ensures walk { walker.new ≡ record { desc = walker.old.desc; reached = self.now.from } }
    {
        match self.new_ends(walker, index) {
            Some((from, to)) => {
                let value = self.value.try_copy(alloc)?;
                Ok(Some(Ranged { from, to, value }))
            }
            None => Ok(None),
        }
    }

    /// What `moved` answers, where the ranges that the changes replace are given from the first on that doesn't end before this one.
    /// A range that none of them meets is only moved, its end as far as its start, unless it is empty with an end side less than its
    /// start side. `Err`: out of memory.
    pub(crate) fn moved_among<'b>(
        &self,
        alloc: Global,
        changed: &'b [ChangedRange],
        walk: &mut ClearWalk<'b>,
        index: &PositionIndex,
    ) -> Result<Option<Ranged<T>>, AllocError>
        requires walk { IsClearWalk walk.old }
        requires index { index.now ≡ walk.old.walker.desc }
        requires start { self.now.from ≤ old_size walk.old.walker.desc }
        requires end { self.now.to ≤ old_size walk.old.walker.desc }
        requires forward { self.now.from ≤ self.now.to }
        requires ascending { walk.old.walker.reached ≤ self.now.from }
        requires order { BeginAfter 0 changed.now }
        requires first { EndsAtOrAfter self.now.from changed.now }
        requires same { (a b : ℕ) → self.now.from ≤ a → list_any (meets a b) changed.now ≡ list_any (meets a b) (replaced walk.old.walker.desc) }
        requires room { new_size counted walk.old.walker.desc < 2 ^ 32 }
        ensures value { IfOk result (λ range. range ≡ moved T.rules walk.old.walker.desc (seen self.now)) }
        ensures walk { IsClearWalk walk.new }
        ensures desc { walk.new.walker.desc ≡ walk.old.walker.desc }
        ensures reached { walk.new.walker.reached ≤ self.now.from }
    {
        if self.is_turned() || first_meets(changed, self.from, self.to) {
            return self.moved(alloc, &mut walk.walker, index);
        }
        let from = walk.place_after(self.from, changed);
        let to = from + (self.to - self.from);
        let value = self.value.try_copy(alloc)?;
        Ok(Some(Ranged { from, to, value }))
    }

    /// Whether it is empty with an end side less than its start side.
    pub(crate) fn is_turned(&self) -> bool
        ensures { result ≡ is_turned T.rules (seen self.now) }
    {
        self.from == self.to && self.value.end_side() < self.value.start_side()
    }

    /// Where the changes of a walk move its ends, unless they drop it.
    fn new_ends(&self, walker: &mut PositionWalker, index: &PositionIndex) -> Option<(u32, u32)>
        requires index { index.now ≡ walker.old.desc }
        requires start { self.now.from ≤ old_size walker.old.desc }
        requires end { self.now.to ≤ old_size walker.old.desc }
        requires forward { self.now.from ≤ self.now.to }
        requires ascending { walker.old.reached ≤ self.now.from }
        ensures value { result ≡ new_ends T.rules walker.old.desc (seen self.now) }
        ensures walk { walker.new ≡ record { desc = walker.old.desc; reached = self.now.from } }
    {
        let start_side = self.value.start_side();
        let end_side = self.value.end_side();
        let (from, to) = if self.from == self.to {
            point_ends(self.from, start_side, end_side, self.value.mode(), walker)?
        } else {
            span_ends(self.from, self.to, start_side, end_side, walker, index)?
        };
        ends_unless_turned(from, to, start_side, end_side)
    }
}

/// Where the ends of an empty range go.
fn point_ends(
    pos: u32,
    start_side: i32,
    end_side: i32,
    mode: MapMode,
    walker: &mut PositionWalker,
) -> Option<(u32, u32)>
    requires inside { pos ≤ old_size walker.old.desc }
    requires ascending { walker.old.reached ≤ pos }
    ensures value { result ≡ point_ends walker.old.desc pos start_side end_side mode }
    ensures walk { walker.new ≡ record { desc = walker.old.desc; reached = pos } }
{
    let from = walker.map_pos(pos, start_side, mode)?;
    let to = walker.map_pos(pos, end_side, MapMode::Simple)?;
    if to < from { None } else { Some((from, to)) }
}

/// Where the ends of a range that isn't empty go. Its end is looked for in the index of the same changes.
fn span_ends(
    from: u32,
    to: u32,
    start_side: i32,
    end_side: i32,
    walker: &mut PositionWalker,
    index: &PositionIndex,
) -> Option<(u32, u32)>
    requires index { index.now ≡ walker.old.desc }
    requires end { to ≤ old_size walker.old.desc }
    requires forward { from ≤ to }
    requires ascending { walker.old.reached ≤ from }
    ensures value { result ≡ span_ends walker.old.desc from to start_side end_side }
    ensures walk { walker.new ≡ record { desc = walker.old.desc; reached = from } }
{
    let new_from = walker.map_pos(from, start_side, MapMode::Simple)?;
    let new_to = index.walk_from(to).map_pos(to, end_side, MapMode::Simple)?;
    let is_dropped = new_to < new_from || (new_from == new_to && start_side > 0 && end_side <= 0);
    if is_dropped {
        None
    } else {
        Some((new_from, new_to))
    }
}

/// The ends, unless they meet and the end side is less than the start side.
fn ends_unless_turned(from: u32, to: u32, start_side: i32, end_side: i32) -> Option<(u32, u32)>
    ensures { result ≡ ends_unless_turned start_side end_side from to }
{
    if from == to && end_side < start_side {
        None
    } else {
        Some((from, to))
    }
}
