ghost use Rattle.std.specs.Prelude.{ℕ, All, Ok};
ghost use Rattle.transaction.specs.Numbers.{IsNumber};

use std::alloc::{AllocError, Global};
use values::one_each;

/// A rule for each number from 1 to `count`, in order, as `make` makes it of its number; none when out of memory.
pub fn each_or_none<T: Drop, F: Fn(u32) -> Result<T, AllocError>>(
    alloc: Global,
    count: u32,
    make: F,
) -> Vec<T>
    requires { F.IsAlwaysCallable make }
    ensures { All (λ rule. (n : ℕ) × (IsNumber count n × F.post make n (Ok rule))) result.items }
{
    match one_each(alloc, count, make) {
        Ok(rules) => rules,
        Err(_) => Vec::new(alloc),
    }
}
