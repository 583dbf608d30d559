ghost use Rattle.std.specs.Prelude.{IfOk, ◌≡◌};
ghost use Rattle.kept_effects.specs.MappedValues.{mapped_position, mapped_range, mapped_value};

use crate::position::mapped_place;
use crate::range::{ends_of, mapped_ends};
use crate::value_mapper::ValueMapper;
use change_desc::Desc;
use cm_plain::{KeptMap, Plain};
use std::alloc::{AllocError, Global};

/// The value of a kept effect with this map after changes of its document, or none where the map drops it (Reference Manual,
/// StateEffect.map). A position, a whole number, is dropped where it lies outside the old document, or strictly inside what is
/// replaced; it moves after what is inserted at its place. A range of the old document, a list of two whole numbers in order,
/// doesn't grow over what is inserted at its ends, and is dropped where these meet or cross. Another value stays. `Err`: out
/// of memory.
pub fn mapped_value(
    alloc: Global,
    map: Option<KeptMap>,
    value: &Plain,
    changes: &Desc,
) -> Result<Option<Plain>, AllocError>
    ensures { IfOk result (λ mapped. mapped ≡ mapped_value map value.now changes.now) }
{
    if map.is_none() {
        return Ok(Some(value.try_copy(alloc)?));
    }
    let mapper = ValueMapper::new(alloc, changes)?;
    mapper.mapped(alloc, map, value)
}

impl<'a> ValueMapper<'a> {
    /// What `mapped_value` gives over the changes. `Err`: out of memory.
    pub fn mapped(
        &self,
        alloc: Global,
        map: Option<KeptMap>,
        value: &Plain,
    ) -> Result<Option<Plain>, AllocError>
        ensures { IfOk result (λ mapped. mapped ≡ mapped_value map value.now self.now) }
    {
        match map {
            None => Ok(Some(value.try_copy(alloc)?)),
            Some(KeptMap::Position) => mapped_position(alloc, value, self),
            Some(KeptMap::Range) => mapped_range(alloc, value, self),
        }
    }
}

/// A value that may be a position.
fn mapped_position(
    alloc: Global,
    value: &Plain,
    changes: &ValueMapper,
) -> Result<Option<Plain>, AllocError>
    ensures { IfOk result (λ mapped. mapped ≡ mapped_position changes.now value.now) }
{
    match value {
        Plain::Int(number) => match mapped_place(changes, *number) {
            None => Ok(None),
            Some(place) => Ok(Some(Plain::Int(i64::from(place)))),
        },
        other => Ok(Some(other.try_copy(alloc)?)),
    }
}

/// A value that may be a range.
fn mapped_range(
    alloc: Global,
    value: &Plain,
    changes: &ValueMapper,
) -> Result<Option<Plain>, AllocError>
    ensures { IfOk result (λ mapped. mapped ≡ mapped_range changes.now value.now) }
{
    match ends_of(changes.len(), value) {
        Some((from, to)) => mapped_ends(alloc, changes, from, to),
        None => Ok(Some(value.try_copy(alloc)?)),
    }
}
