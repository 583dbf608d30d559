ghost use Rattle.std.specs.Prelude.{◌≡◌, IfOk, Some, filter_map, map};
ghost use Rattle.std.specs.List.{list_any};
ghost use Rattle.cm_plain.specs.Plain.{datum_of};
ghost use Rattle.values.specs.Combining.{as_layers, bounds, combine, first_or, greatest, greatest_of, is_true, list_of_inputs, list_of_two, pair_in, some_true, sum_of_inputs};
ghost use Rattle.values.specs.Reading.{item, number_in, plain_or_unit, ranges_in, sum_of};
ghost use Rattle.shipped_rules.specs.Items.{AreItems, narrower_of, narrowest};
ghost use Rattle.cm_plain.specs.declared.plain.Plain.TheVariants as plain;

use crate::filtering::greater;
use crate::reading::{number_in, pair_in};
use cm_plain::{MAX_DEPTH, Plain};
use decoration::{DecoSet, Layers};
use range_set::RangeSet;
use std::alloc::{AllocError, Global};
use values::Val;

/// What the combiner of a number makes of a facet's inputs, in order. `Err`: out of memory.
pub fn combine(alloc: Global, number: u32, inputs: &[Val]) -> Result<Val, AllocError>
    ensures { IfOk result (λ v. v ≡ combine number inputs.now) }
{
    match number {
        1 => list_of_inputs(alloc, inputs),
        2 => first_or(alloc, Val::Plain(Plain::Unit), inputs),
        3 => Ok(Val::Plain(Plain::Bool(some_true(inputs)))),
        4 => Ok(greatest(inputs)),
        5 => Ok(Val::Plain(Plain::Int(sum_of(inputs)))),
        6 => as_layers(alloc, inputs),
        7 => first_or(alloc, Val::Plain(Plain::Int(4)), inputs),
        8 => first_or(alloc, Val::Plain(Plain::Unit), inputs),
        9 => list_of_inputs(alloc, inputs),
        10 => list_of_inputs(alloc, inputs),
        11 => list_of_inputs(alloc, inputs),
        12 => bounds(alloc, inputs),
        13 => first_or(alloc, Val::Plain(Plain::Bool(false)), inputs),
        _ => list_of_inputs(alloc, inputs),
    }
}

/// The first input, or another value where there is none.
fn first_or(alloc: Global, other: Val, inputs: &[Val]) -> Result<Val, AllocError>
    ensures { IfOk result (λ v. v ≡ first_or other inputs.now) }
{
    match inputs {
        [first, ..] => first.try_copy(alloc),
        [] => Ok(other),
    }
}

/// Whether it is true.
fn is_true(value: &Val) -> bool
    ensures { result ≡ is_true value.now }
{
    match value {
        Val::Plain(Plain::Bool(truth)) => *truth,
        _ => false,
    }
}

/// Whether one is true.
fn some_true(inputs: &[Val]) -> bool
    ensures { result ≡ list_any is_true inputs.now }
{
    for input in inputs {
        if is_true(input) {
            return true;
        }
    }
    false
}

/// The greatest number, or 0.
fn greatest(inputs: &[Val]) -> Val
    ensures { result ≡ greatest inputs.now }
{
    match greatest_number(inputs) {
        Some(number) => Val::Plain(Plain::Int(number)),
        None => Val::Plain(Plain::Int(0)),
    }
}

/// The greatest number among inputs, if there is one.
fn greatest_number(inputs: &[Val]) -> Option<i64>
    ensures { result ≡ greatest_of (filter_map number_in inputs.now) }
{
    let mut greatest = None;
    for input in inputs {
        if let Some(number) = number_in(input) {
            greatest = Some(greater(greatest, number));
        }
    }
    greatest
}

/// The sum of the numbers; it stops at the ends of 64 bits.
fn sum_of(inputs: &[Val]) -> i64
    ensures { result ≡ sum_of (filter_map number_in inputs.now) }
{
    let mut sum: i64 = 0;
    for input in inputs {
        if let Some(number) = number_in(input) {
            sum = sum.saturating_add(number);
        }
    }
    sum
}

/// The sets as layers, in order.
fn as_layers(alloc: Global, inputs: &[Val]) -> Result<Val, AllocError>
    ensures { IfOk result (λ v. v ≡ as_layers inputs.now) }
{
    let sets = sets_of(alloc, inputs)?;
    Ok(Val::Layers(Layers::of(sets)))
}

/// The set of each input.
fn sets_of(alloc: Global, inputs: &[Val]) -> Result<Vec<DecoSet>, AllocError>
    ensures { IfOk result (λ sets. sets.items ≡ map ranges_in inputs.now) }
{
    let mut sets = Vec::new(alloc);
    for input in inputs {
        sets.push(set_of(alloc, input)?)?;
    }
    Ok(sets)
}

/// The set that a value is, or an empty one.
fn set_of(alloc: Global, value: &Val) -> Result<DecoSet, AllocError>
    ensures { IfOk result (λ set. set ≡ ranges_in value.now) }
{
    match value {
        Val::Ranges(set) => set.try_copy(),
        _ => Ok(RangeSet::empty(alloc)),
    }
}

/// The list of the inputs.
fn list_of_inputs(alloc: Global, inputs: &[Val]) -> Result<Val, AllocError>
    ensures { IfOk result (λ v. v ≡ list_of_inputs inputs.now) }
{
    let items = items_of(alloc, inputs)?;
    Ok(listed(items))
}

/// The list of items, none of which is of the greatest depth.
pub(crate) fn listed(items: Vec<Plain>) -> Val
    requires { AreItems (map datum_of items.items) }
    ensures { result ≡ Val.Plain (plain.List (map datum_of items.items)) }
{
    match Plain::list(items) {
        Ok(list) => Val::Plain(list),
        Err(_) => unreachable!(),
    }
}

/// Each input as an item of a list.
fn items_of(alloc: Global, inputs: &[Val]) -> Result<Vec<Plain>, AllocError>
    ensures items { IfOk result (λ items. map datum_of items.items ≡ map (λ v. item (plain_or_unit v)) inputs.now) }
    ensures shallow { IfOk result (λ items. AreItems (map datum_of items.items)) }
{
    let mut items = Vec::new(alloc);
    for input in inputs {
        items.push(item_of(alloc, input)?)?;
    }
    Ok(items)
}

/// A value as an item of a list: Unit where it isn't plain or of the greatest depth.
pub(crate) fn item_of(alloc: Global, value: &Val) -> Result<Plain, AllocError>
    ensures { IfOk result (λ p. datum_of p ≡ item (plain_or_unit value.now)) }
{
    match value {
        Val::Plain(plain) if plain.depth() < MAX_DEPTH => plain.try_copy(alloc),
        _ => Ok(Plain::Unit),
    }
}

/// The greatest first and the least second number of the inputs that are lists of two numbers; 100 and 500 where none is.
fn bounds(alloc: Global, inputs: &[Val]) -> Result<Val, AllocError>
    ensures { IfOk result (λ v. v ≡ bounds inputs.now) }
{
    match narrowest(inputs) {
        Some((first, second)) => list_of_two(alloc, first, second),
        None => list_of_two(alloc, 100, 500),
    }
}

/// The greatest first and the least second number, if an input is a list of two numbers.
fn narrowest(inputs: &[Val]) -> Option<(i64, i64)>
    ensures { result ≡ narrowest (filter_map pair_in inputs.now) }
{
    let mut found = None;
    for input in inputs {
        if let Some(pair) = pair_in(input) {
            found = Some(narrower(found, pair));
        }
    }
    found
}

/// The greater first and the lesser second number of a pair found before, if there is one, and another.
fn narrower(found: Option<(i64, i64)>, pair: (i64, i64)) -> (i64, i64)
    ensures { Some result ≡ narrower_of found pair }
{
    match found {
        Some(before) => (before.0.max(pair.0), before.1.min(pair.1)),
        None => pair,
    }
}

/// The list of two numbers. `Err`: out of memory.
fn list_of_two(alloc: Global, first: i64, second: i64) -> Result<Val, AllocError>
    ensures { IfOk result (λ v. v ≡ list_of_two first second) }
{
    let mut items = Vec::new(alloc);
    items.push(Plain::Int(first))?;
    items.push(Plain::Int(second))?;
    Ok(listed(items))
}
