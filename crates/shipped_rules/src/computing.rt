ghost use Rattle.std.specs.Prelude.{◌≡◌, ◌≤◌, IfOk, filter_map, length};
ghost use Rattle.line_tree.specs.Lines.{line_texts};
ghost use Rattle.line_tree.specs.Text.{max_len};
ghost use Rattle.values.specs.Computing.{compute, first_ranges, line_count, main_head, number_read, sum_of_reads};
ghost use Rattle.values.specs.Reading.{plus, sum_of};

use crate::reading::{document_length, first_plain, first_read, number_in};
use cm_plain::Plain;
use line_tree::Text;
use range_set::RangeSet;
use std::alloc::{AllocError, Global};
use values::{Deps, SharedVal, Val};

/// What the computer of a number makes of what is read. `Err`: out of memory.
pub fn compute(alloc: Global, number: u32, deps: &Deps) -> Result<Val, AllocError>
    ensures { IfOk result (λ v. v ≡ compute number deps.now) }
{
    match number {
        1 => Ok(document_length(deps)),
        2 => Ok(line_count(deps)),
        3 => Ok(main_head(deps)),
        4 => first_plain(alloc, deps),
        5 => Ok(sum_of_reads(deps)),
        6 => first_ranges(alloc, deps),
        _ => first_plain(alloc, deps),
    }
}

/// How many lines the document has, 0 where it isn't declared.
fn line_count(deps: &Deps) -> Val
    ensures { result ≡ line_count deps.now }
{
    deps.known();
    match deps.document() {
        Some(document) => Val::Plain(Plain::Int(i64::from(count_lines(document)))),
        None => Val::Plain(Plain::Int(0)),
    }
}

/// How many lines a document has.
fn count_lines(document: &Text) -> u32
    requires { length document.now.characters ≤ max_len }
    ensures { result ≡ length (line_texts document.now.characters) }
{
    document.lines() as u32
}

/// The head of the main range, 0 where the document or the selection isn't declared.
fn main_head(deps: &Deps) -> Val
    ensures { result ≡ main_head deps.now }
{
    match (deps.document(), deps.selection()) {
        (Some(_), Some(selection)) => Val::Plain(Plain::Int(i64::from(selection.main().head))),
        _ => Val::Plain(Plain::Int(0)),
    }
}

/// The sum of the reads that are numbers.
fn sum_of_reads(deps: &Deps) -> Val
    ensures { result ≡ sum_of_reads deps.now }
{
    Val::Plain(Plain::Int(sum_of(deps.values())))
}

/// The sum of the values that are numbers; it stops at the ends of 64 bits.
fn sum_of(values: &[Option<SharedVal>]) -> i64
    ensures { result ≡ sum_of (filter_map number_read values.now) }
{
    let mut sum: i64 = 0;
    for value in values {
        if let Some(number) = number_read(value) {
            sum = sum.saturating_add(number);
        }
    }
    sum
}

/// The number that a read is, if it is one.
fn number_read(value: &Option<SharedVal>) -> Option<i64>
    ensures { result ≡ number_read value.now }
{
    match value {
        Some(value) => number_in(value.value()),
        None => None,
    }
}

/// The first read as a set, which is empty where it is none. `Err`: out of memory.
fn first_ranges(alloc: Global, deps: &Deps) -> Result<Val, AllocError>
    ensures { IfOk result (λ v. v ≡ first_ranges deps.now) }
{
    match first_read(deps) {
        Some(Val::Ranges(set)) => Ok(Val::Ranges(set.try_copy()?)),
        _ => Ok(Val::Ranges(RangeSet::empty(alloc))),
    }
}
