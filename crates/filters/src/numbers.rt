// The rule numbers that a facet's value lists.
ghost use Rattle.std.specs.Prelude.{All, IfOk, filter_map, map, reverse, ℕ, ◌≡◌};
ghost use Rattle.cm_plain.specs.Plain.{datum_of};
ghost use Rattle.transaction.specs.Numbers.{IsNumber};
ghost use Rattle.values.specs.Reading.{place_in};
ghost use Rattle.filters.specs.Facets.{ListsNumbers, rule_number, rule_numbers};

use cm_plain::Plain;
use std::alloc::{AllocError, Global};
use values::Val;

/// A whole number as a number of 32 bits, if it is one.
fn place_in(number: i64) -> Option<u32>
    ensures { result ≡ place_in number }
{
    if number < 0 || number > 4_294_967_295 {
        return None;
    }
    Some(number as u32)
}

/// The number of a rule that an item is.
fn rule_number(item: &Plain) -> Option<u32>
    ensures { result ≡ rule_number (datum_of item.now) }
{
    match item {
        Plain::Int(number) => place_in(*number),
        _ => None,
    }
}

/// The numbers of rules among items.
#[inline(always)]
fn numbers_of(alloc: Global, items: &[Plain]) -> Result<Vec<u32>, AllocError>
    ensures { IfOk result (λ numbers. numbers.items ≡ filter_map rule_number (map datum_of items.now)) }
{
    let mut numbers = Vec::new(alloc);
    for item in items {
        if let Some(number) = rule_number(item) {
            numbers.push(number)?;
        }
    }
    Ok(numbers)
}

/// The rule numbers that a value lists, from the highest precedence to the lowest.
#[inline(always)]
fn numbers_in(alloc: Global, value: &Val) -> Result<Vec<u32>, AllocError>
    ensures { IfOk result (λ numbers. numbers.items ≡ rule_numbers value.now) }
{
    match value {
        Val::Plain(Plain::List(items)) => numbers_of(alloc, items.as_slice()),
        _ => Ok(Vec::new(alloc)),
    }
}

/// The rule numbers that a value lists, from the highest precedence to the lowest. `Err`: out of memory.
pub(crate) fn highest_first(alloc: Global, value: &Val) -> Result<Vec<u32>, AllocError>
    ensures value { IfOk result (λ numbers. numbers.items ≡ rule_numbers value.now) }
    ensures numbers { IfOk result (λ numbers. (count : ℕ) → ListsNumbers count value.now → All (IsNumber count) numbers.items) }
{
    numbers_in(alloc, value)
}

/// The same from the lowest precedence to the highest. `Err`: out of memory.
#[inline(always)]
pub(crate) fn lowest_first(alloc: Global, value: &Val) -> Result<Vec<u32>, AllocError>
    ensures value { IfOk result (λ numbers. numbers.items ≡ reverse (rule_numbers value.now)) }
    ensures numbers { IfOk result (λ numbers. (count : ℕ) → ListsNumbers count value.now → All (IsNumber count) numbers.items) }
{
    let mut numbers = numbers_in(alloc, value)?;
    numbers.reverse();
    Ok(numbers)
}
