ghost use Rattle.std.specs.Prelude.{IfOk, ◌≡◌};
ghost use Rattle.kept_effects.specs.MappedValues.{moved_effect, moved_effects};

use crate::value_mapper::ValueMapper;
use change_desc::Desc;
use cm_plain::KeptEffect;
use listed::Listed;
use std::alloc::{AllocError, Global};

/// A kept effect after changes, unless its map drops it.
fn moved_effect(
    alloc: Global,
    effect: &KeptEffect,
    changes: &ValueMapper,
) -> Result<Option<KeptEffect>, AllocError>
    ensures { IfOk result (λ moved. moved ≡ moved_effect changes.now effect.now) }
{
    match changes.mapped(alloc, effect.map, &effect.value)? {
        None => Ok(None),
        Some(value) => Ok(Some(KeptEffect {
            id: effect.id,
            map: effect.map,
            value,
        })),
    }
}

/// Kept effects after changes of their document, in order, without those that their maps drop. The changes are read once, and
/// an effect takes the logarithm of their number. `Err`: out of memory.
pub fn moved_effects(
    alloc: Global,
    effects: &[KeptEffect],
    changes: &Desc,
) -> Result<Listed<KeptEffect>, AllocError>
    ensures { IfOk result (λ moved. moved ≡ moved_effects changes.now effects.now) }
{
    let mut moved = Listed::empty(alloc);
    if effects.is_empty() {
        return Ok(moved);
    }
    let mapper = ValueMapper::new(alloc, changes)?;
    for effect in effects {
        if let Some(next) = moved_effect(alloc, effect, &mapper)? {
            moved.push(next)?;
        }
    }
    Ok(moved)
}
