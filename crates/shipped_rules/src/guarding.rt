ghost use Rattle.std.specs.Prelude.{◌≡◌, IfOk, filter_map, map};
ghost use Rattle.cm_plain.specs.Plain.{datum_of};
ghost use Rattle.values.specs.Guarding.{guard, protected_ranges, range_item};

use crate::reading::{places_in, two_numbers};
use cm_plain::Plain;
use listed::Listed;
use std::alloc::{AllocError, Global};
use values::{Guarding, TrView, Val};

/// What the change guard of a number answers of a transaction and the value of the facet `filterData`. `Err`: out of memory.
pub fn guard(
    alloc: Global,
    number: u32,
    transaction: &TrView,
    filter_data: &Val,
) -> Result<Guarding, AllocError>
    ensures { IfOk result (λ a. a ≡ guard number transaction.now filter_data.now) }
{
    match number {
        1 => Ok(Guarding::All),
        2 => Ok(Guarding::Nothing),
        3 => Ok(Guarding::Protected(protected_ranges(alloc, filter_data)?)),
        _ => Ok(Guarding::All),
    }
}

/// The ranges that the items of a value name. `Err`: out of memory.
fn protected_ranges(alloc: Global, value: &Val) -> Result<Listed<(u32, u32)>, AllocError>
    ensures { IfOk result (λ ranges. ranges ≡ protected_ranges value.now) }
{
    match value {
        Val::Plain(Plain::List(items)) => named_ranges(alloc, items.as_slice()),
        _ => Ok(Listed::empty(alloc)),
    }
}

/// The ranges that items name.
fn named_ranges(alloc: Global, items: &[Plain]) -> Result<Listed<(u32, u32)>, AllocError>
    ensures { IfOk result (λ ranges. ranges ≡ filter_map range_item (map datum_of items.now)) }
{
    let mut ranges = Listed::empty(alloc);
    for item in items {
        if let Some(range) = range_item(item) {
            ranges.push(range)?;
        }
    }
    Ok(ranges)
}

/// The range that an item names, if it is a list of two places.
fn range_item(item: &Plain) -> Option<(u32, u32)>
    ensures { result ≡ range_item (datum_of item.now) }
{
    match two_numbers(item) {
        Some((from, to)) => places_in(from, to),
        None => None,
    }
}
