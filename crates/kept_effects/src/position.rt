ghost use Rattle.std.specs.Prelude.{IfSome, ◌≡◌, ◌≤◌};
ghost use Rattle.kept_effects.specs.MappedValues.{mapped_place, position_in};

use crate::value_mapper::ValueMapper;

/// A whole number as a position of a document of `len` characters, if it is one.
pub(crate) fn position_in(len: u32, number: i64) -> Option<u32>
    ensures value { result ≡ position_in len number }
    ensures inside { IfSome result (λ position. position ≤ len) }
{
    if number < 0 || number > i64::from(len) {
        return None;
    }
    Some(number as u32)
}

/// Where changes move a number that is a position of their old document, unless it lies strictly inside what they replace.
pub(crate) fn mapped_place(changes: &ValueMapper, number: i64) -> Option<u32>
    ensures { result ≡ mapped_place changes.now number }
{
    match position_in(changes.len(), number) {
        None => None,
        Some(position) => changes.position(position),
    }
}
