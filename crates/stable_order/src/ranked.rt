ghost use Rattle.std.specs.Prelude.{◌≡◌, Bool};
ghost use Rattle.std.specs.Ordering.{is_lt};
ghost use Rattle.std.specs.Cmp.{IsStrictWeakOrder};

use std::cmp::Ordering;

/// Values that an order ranks, of which two may rank alike without being equal.
pub trait Ranked: Drop {
    /// Whether a value ranks before another.
    ghost before: { Self → Self → Bool };

    /// How the value ranks beside another: `Less` exactly where it ranks before it.
    fn compare(&self, other: &Self) -> Ordering
        ensures { is_lt result ≡ before self.now other.now };

    /// A strict weak order: no two values rank each before the other, and where a value doesn't rank before a second one, nor
    /// that before a third, it doesn't rank before the third.
    ghost is_order: { IsStrictWeakOrder before };
}
