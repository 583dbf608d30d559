ghost use Rattle.std.specs.Prelude.{IfOk, IfSome, ◌≡◌, ◌≤◌};
ghost use Rattle.change_desc.specs.Sections.{old_size};
ghost use Rattle.kept_effects.specs.PrivateEnds.{AreIn};
ghost use Rattle.kept_effects.specs.MappedValues.{ends_in, ends_of, mapped_ends, range_value, two_numbers};

use crate::value_mapper::ValueMapper;
use cm_plain::{Plain, TooDeep};
use std::alloc::{AllocError, Global};

/// The numbers of a list of two whole numbers.
fn two_numbers(value: &Plain) -> Option<(i64, i64)>
    ensures { result ≡ two_numbers value.now }
{
    match value {
        Plain::List(list) => match list.as_slice() {
            [Plain::Int(from), Plain::Int(to)] => Some((*from, *to)),
            _ => None,
        },
        _ => None,
    }
}

/// Two whole numbers as the ends of a range of a document of `len` characters, if they are.
fn ends_in(len: u32, from: i64, to: i64) -> Option<(u32, u32)>
    ensures value { result ≡ ends_in len (from, to) }
    ensures inside { IfSome result (AreIn len) }
{
    if from < 0 || to < from || to > i64::from(len) {
        return None;
    }
    Some((from as u32, to as u32))
}

/// The ends of the range of a document of `len` characters that a value is, if it is one.
pub(crate) fn ends_of(len: u32, value: &Plain) -> Option<(u32, u32)>
    ensures value { result ≡ ends_of len value.now }
    ensures inside { IfSome result (AreIn len) }
{
    match two_numbers(value) {
        Some((from, to)) => ends_in(len, from, to),
        None => None,
    }
}

/// The list of the two ends of a range.
fn range_value(alloc: Global, from: u32, to: u32) -> Result<Plain, AllocError>
    ensures { IfOk result (λ value. value ≡ range_value from to) }
{
    let mut items = Vec::new(alloc);
    items.push(Plain::Int(i64::from(from)))?;
    items.push(Plain::Int(i64::from(to)))?;
    match Plain::list(items) {
        Ok(value) => Ok(value),
        Err(TooDeep) => unreachable!(),
    }
}

/// Where changes move a range of their old document, unless its ends meet or cross.
pub(crate) fn mapped_ends(
    alloc: Global,
    changes: &ValueMapper,
    from: u32,
    to: u32,
) -> Result<Option<Plain>, AllocError>
    requires from { from ≤ old_size changes.now }
    requires to { to ≤ old_size changes.now }
    ensures { IfOk result (λ moved. moved ≡ mapped_ends changes.now from to) }
{
    let start = changes.start(from);
    let end = changes.end(to);
    if end <= start {
        return Ok(None);
    }
    Ok(Some(range_value(alloc, start, end)?))
}
