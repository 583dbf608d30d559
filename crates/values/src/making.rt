ghost use Rattle.std.specs.Prelude.{◌≡◌, ℕ, All, IfOk, Ok, length};
ghost use Rattle.transaction.specs.Numbers.{IsNumber};

use std::alloc::{AllocError, Global};

/// A rule for each number from 1 to `count`, in order, as `make` makes it of its number: whoever makes a kit calls this once for
/// each sort. `Err`: out of memory.
pub fn one_each<T: Drop, F: Fn(u32) -> Result<T, AllocError>>(
    alloc: Global,
    count: u32,
    make: F,
) -> Result<Vec<T>, AllocError>
    requires { F.IsAlwaysCallable make }
    ensures count { IfOk result (λ rules. length rules.items ≡ count) }
    ensures numbers { IfOk result (λ rules. All (λ rule. (n : ℕ) × (IsNumber count n × F.post make n (Ok rule))) rules.items) }
{
    let mut rules = Vec::new(alloc);
    for below in 0..count {
        let rule = make(below + 1)?;
        rules.push(rule)?;
    }
    Ok(rules)
}
