ghost use Rattle.std.specs.Prelude.{IfOk, ℕ, ◌≡◌, ◌≤◌};
ghost use Rattle.std.specs.List.{list_any};
ghost use Rattle.change_desc.specs.Meeting.{BeginAfter, EndsAtOrAfter, some_meet};
ghost use Rattle.change_desc.specs.Ranges.{meets, replaced};

use crate::changed_range::ChangedRange;
use crate::desc::Desc;
use std::alloc::AllocError;

impl Desc {
    /// Whether some range that it replaces overlaps or touches one that another description of the same text replaces. Both are
    /// gone through once. `Err`: out of memory.
    pub fn meets(&self, other: &Desc) -> Result<bool, AllocError>
        ensures { IfOk result (λ meet. meet ≡ some_meet (replaced self.now) (replaced other.now)) }
    {
        let ranges = self.ranges(true)?;
        let others = other.ranges(true)?;
        Ok(some_meet(&ranges, &others))
    }
}

/// Whether a range of one list overlaps or touches one of another; both stand in order.
fn some_meet(ranges: &[ChangedRange], others: &[ChangedRange]) -> bool
    requires order { BeginAfter 0 ranges.now }
    requires others { BeginAfter 0 others.now }
    ensures { result ≡ some_meet ranges.now others.now }
{
    let mut rest = others;
    for range in ranges {
        rest = ranges_from(rest, range.from_a);
        if first_meets(rest, range.from_a, range.to_a) {
            return true;
        }
    }
    false
}

/// The ranges, which stand in order, from the first on that doesn't end before a place of the old text: a range from that place
/// on meets one of these exactly where it meets one of all.
pub fn ranges_from(ranges: &[ChangedRange], place: u32) -> &[ChangedRange]
    requires { BeginAfter 0 ranges.now }
    ensures same { (a b : ℕ) → place ≤ a → list_any (meets a b) result.now ≡ list_any (meets a b) ranges.now }
    ensures order { BeginAfter 0 result.now }
    ensures first { EndsAtOrAfter place result.now }
{
    let mut rest = ranges;
    while let Some((first, others)) = rest.split_first() {
        if place <= first.to_a {
            return rest;
        }
        rest = others;
    }
    rest
}

/// Whether one of the ranges, which stand in order and of which the first doesn't end before `from`, overlaps or touches the
/// range of the old text from `from` to `to`: the first does, if any.
pub fn first_meets(ranges: &[ChangedRange], from: u32, to: u32) -> bool
    requires order { BeginAfter 0 ranges.now }
    requires first { EndsAtOrAfter from ranges.now }
    ensures { result ≡ list_any (meets from to) ranges.now }
{
    match ranges.first() {
        Some(first) => first.from_a <= to,
        None => false,
    }
}
