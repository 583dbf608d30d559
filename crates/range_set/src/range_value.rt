ghost use Rattle.std.specs.Prelude.{◌≡◌, ◌↔◌, IfOk, IsTrue};
ghost use Rattle.range_set.specs.Rules.{RangeRules};

use change_desc::MapMode;
use std::alloc::{AllocError, Global};

/// What a range carries, and how its ends move (Reference Manual: RangeValue).
pub trait RangeValue: Drop {
    /// The two sides, the mode and the point flag, as functions of the value.
    ghost rules: { RangeRules Self };

    /// The side of the start: negative to stay before text inserted there. It also orders ranges that start at one place.
    fn start_side(&self) -> i32
        ensures { result ≡ rules.start_side self.now };

    /// The side of the end: negative to stay before text inserted there.
    fn end_side(&self) -> i32
        ensures { result ≡ rules.end_side self.now };

    /// What an empty range keeps track of where it is mapped.
    fn mode(&self) -> MapMode
        ensures { result ≡ rules.mode self.now };

    /// Whether the range stands for what it covers, in place of marking it.
    fn is_point(&self) -> bool
        ensures { result ≡ rules.is_point self.now };

    /// Whether both are equal.
    fn same(&self, other: &Self) -> bool
        ensures { IsTrue result ↔ (self.now ≡ other.now) };

    /// The same value once more. `Err`: out of memory.
    fn try_copy(&self, alloc: Global) -> Result<Self, AllocError>
        ensures { IfOk result (λ copy. copy ≡ self.now) };
}
