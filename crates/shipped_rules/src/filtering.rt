ghost use Rattle.std.specs.Prelude.{◌≡◌, IfOk, filter_map, map, [], Some};
ghost use Rattle.cm_plain.specs.Plain.{datum_of};
ghost use Rattle.values.specs.Combining.{greatest_of};
ghost use Rattle.values.specs.Filtering.{break_at, filter, limit_in, number_item, unless_long, with_break};
ghost use Rattle.shipped_rules.specs.Greatest.{greater_of};

use change_set::{Change, InsertedText};
use cm_plain::Plain;
use line_tree::Text;
use listed::Listed;
use std::alloc::{AllocError, Global};
use transaction::Spec;
use values::{Filtering, TrView, Val};

/// What the transaction filter of a number answers of a transaction and the value of the facet `filterData`. `Err`: out of
/// memory.
pub fn filter(
    alloc: Global,
    number: u32,
    transaction: &TrView,
    filter_data: &Val,
) -> Result<Filtering, AllocError>
    ensures { IfOk result (λ a. a ≡ filter number transaction.now filter_data.now) }
{
    match number {
        1 => Ok(Filtering::Keep),
        2 => Ok(Filtering::Instead(Listed::empty(alloc))),
        3 => with_break(alloc, transaction),
        4 => Ok(unless_long(alloc, transaction, filter_data)),
        _ => Ok(Filtering::Keep),
    }
}

/// The transaction and a break at the new end; nothing more where it changes nothing.
fn with_break(alloc: Global, transaction: &TrView) -> Result<Filtering, AllocError>
    ensures { IfOk result (λ a. a ≡ with_break transaction.now) }
{
    if transaction.changes().is_empty() {
        return Ok(Filtering::Keep);
    }
    let mut specs = Listed::empty(alloc);
    specs.push(break_at(alloc, transaction.document().len())?)?;
    Ok(Filtering::Also(specs))
}

/// A spec that inserts a break at a place, after the transaction.
fn break_at(alloc: Global, place: u32) -> Result<Spec<Val>, AllocError>
    ensures { IfOk result (λ spec. spec ≡ break_at place) }
{
    let insert = InsertedText::of(Text::of(alloc, &['\n'])?);
    let mut changes = Listed::empty(alloc);
    changes.push(Change::Span {
        from: place,
        to: place,
        insert,
    })?;
    Ok(Spec {
        changes,
        selection: None,
        effects: Listed::empty(alloc),
        annotations: Listed::empty(alloc),
        user_event: None,
        sequential: true,
        filter: true,
    })
}

/// Nothing where the new document is longer than the limit, else the transaction.
fn unless_long(alloc: Global, transaction: &TrView, filter_data: &Val) -> Filtering
    ensures { result ≡ unless_long transaction.now filter_data.now }
{
    match limit_in(filter_data) {
        Some(limit) if limit < i64::from(transaction.document().len()) => {
            Filtering::Instead(Listed::empty(alloc))
        }
        _ => Filtering::Keep,
    }
}

/// The greatest number among the items of a value, if there is one.
fn limit_in(value: &Val) -> Option<i64>
    ensures { result ≡ limit_in value.now }
{
    match value {
        Val::Plain(Plain::List(items)) => greatest_item(items.as_slice()),
        _ => None,
    }
}

/// The greatest number among items, if there is one.
fn greatest_item(items: &[Plain]) -> Option<i64>
    ensures { result ≡ greatest_of (filter_map number_item (map datum_of items.now)) }
{
    let mut greatest = None;
    for item in items {
        if let Plain::Int(number) = item {
            greatest = Some(greater(greatest, *number));
        }
    }
    greatest
}

/// The greater of a number found before, if there is one, and another.
pub(crate) fn greater(found: Option<i64>, number: i64) -> i64
    ensures { Some result ≡ greater_of found number }
{
    match found {
        Some(before) => before.max(number),
        None => number,
    }
}
