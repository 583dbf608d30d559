ghost use Rattle.std.specs.Prelude.{◌≡◌, IfOk, None, Some, option_copied, pos};
ghost use Rattle.kept_effects.specs.MappedValues.{two_numbers};
ghost use Rattle.values.specs.Combining.{pair_in};
ghost use Rattle.values.specs.Computing.{document_length};
ghost use Rattle.values.specs.Reading.{first_plain, first_read, number_in, place_in, places_in};

use cm_plain::Plain;
use std::alloc::{AllocError, Global};
use values::{Deps, Val};

/// The value of the first declared facet or field, if there is one and it is present.
pub(crate) fn first_read(deps: &Deps) -> Option<&Val>
    ensures { option_copied result ≡ first_read deps.now }
{
    match deps.values() {
        [Some(first), ..] => Some(first.value()),
        _ => None,
    }
}

/// The first read where it is plain, else Unit. `Err`: out of memory.
pub(crate) fn first_plain(alloc: Global, deps: &Deps) -> Result<Val, AllocError>
    ensures { IfOk result (λ v. v ≡ first_plain deps.now) }
{
    match first_read(deps) {
        Some(Val::Plain(plain)) => Ok(Val::Plain(plain.try_copy(alloc)?)),
        _ => Ok(Val::Plain(Plain::Unit)),
    }
}

/// The document's length, 0 where it isn't declared.
pub(crate) fn document_length(deps: &Deps) -> Val
    ensures { result ≡ document_length deps.now }
{
    match deps.document() {
        Some(document) => Val::Plain(Plain::Int(i64::from(document.len()))),
        None => Val::Plain(Plain::Int(0)),
    }
}

/// The number that it is, if it is one.
pub(crate) fn number_in(value: &Val) -> Option<i64>
    ensures { result ≡ number_in value.now }
{
    match value {
        Val::Plain(Plain::Int(number)) => Some(*number),
        _ => None,
    }
}

/// The two numbers of a list of two numbers, if it is one.
pub(crate) fn two_numbers(value: &Plain) -> Option<(i64, i64)>
    ensures { result ≡ two_numbers value.now }
{
    match value {
        Plain::List(list) => match list.as_slice() {
            [Plain::Int(first), Plain::Int(second)] => Some((*first, *second)),
            _ => None,
        },
        _ => None,
    }
}

/// The two numbers of a value that is a list of two numbers, if it is one.
pub(crate) fn pair_in(value: &Val) -> Option<(i64, i64)>
    ensures { result ≡ pair_in value.now }
{
    match value {
        Val::Plain(plain) => two_numbers(plain),
        _ => None,
    }
}

/// Two whole numbers as two places.
pub(crate) fn places_in(from: i64, to: i64) -> Option<(u32, u32)>
    ensures { result ≡ places_in (from, to) }
{
    Some((place_in(from)?, place_in(to)?))
}

/// A whole number as a place, if it is at least 0 and fits 32 bits.
pub(crate) fn place_in(number: i64) -> Option<u32>
    ensures { result ≡ place_in number }
{
    if number < 0 || number > 4_294_967_295 {
        return None;
    }
    Some(number as u32)
}
