ghost use Rattle.std.specs.Prelude.{◌≡◌, IfOk, length, map, pos};
ghost use Rattle.line_tree.specs.Lines.{line_texts};
ghost use Rattle.cm_plain.specs.Plain.{datum_of};
ghost use Rattle.values.specs.ListComputing.{compute_list, first_items, line_lengths};
ghost use Rattle.values.specs.Reading.{int, value_of};
ghost use Rattle.values.specs.declared.val.Val.TheVariants as val;

use crate::reading::first_read;
use cm_plain::Plain;
use line_tree::Text;
use listed::Listed;
use std::alloc::{AllocError, Global};
use values::{Deps, Val};

/// What the computer of lists of a number makes of what is read: inputs of a facet, in order. `Err`: out of memory.
pub fn compute_list(alloc: Global, number: u32, deps: &Deps) -> Result<Listed<Val>, AllocError>
    ensures { IfOk result (λ vs. vs ≡ compute_list number deps.now) }
{
    match number {
        1 => line_lengths(alloc, deps),
        2 => first_items(alloc, deps),
        _ => first_items(alloc, deps),
    }
}

/// The length of each line, in characters; none where the document isn't declared.
fn line_lengths(alloc: Global, deps: &Deps) -> Result<Listed<Val>, AllocError>
    ensures { IfOk result (λ vs. vs ≡ line_lengths deps.now) }
{
    match deps.document() {
        Some(document) => lengths_of(alloc, document),
        None => Ok(Listed::empty(alloc)),
    }
}

/// The length of each line of a document, in characters.
fn lengths_of(alloc: Global, document: &Text) -> Result<Listed<Val>, AllocError>
    ensures { IfOk result (λ vs. vs ≡ map (λ line. int (pos (length line))) (line_texts document.now.characters)) }
{
    let mut lengths = Listed::empty(alloc);
    for breaks in 0..document.lines() {
        let line = document.line(breaks + 1);
        lengths.push(Val::Plain(Plain::Int(i64::from(line.to - line.from))))?;
    }
    Ok(lengths)
}

/// The items of the first read where it is a list.
fn first_items(alloc: Global, deps: &Deps) -> Result<Listed<Val>, AllocError>
    ensures { IfOk result (λ vs. vs ≡ first_items deps.now) }
{
    match first_read(deps) {
        Some(Val::Plain(Plain::List(items))) => values_of(alloc, items.as_slice()),
        _ => Ok(Listed::empty(alloc)),
    }
}

/// Items as values, in order.
fn values_of(alloc: Global, items: &[Plain]) -> Result<Listed<Val>, AllocError>
    ensures { IfOk result (λ vs. vs ≡ map (λ d. val.Plain (value_of d)) (map datum_of items.now)) }
{
    let mut values = Listed::empty(alloc);
    for item in items {
        values.push(Val::Plain(item.try_copy(alloc)?))?;
    }
    Ok(values)
}
