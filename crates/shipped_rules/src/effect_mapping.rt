ghost use Rattle.std.specs.Prelude.{◌≡◌, IfOk};
ghost use Rattle.values.specs.EffectMapping.{map_effect};

use change_desc::Desc;
use cm_plain::KeptMap;
use kept_effects::mapped_value;
use std::alloc::{AllocError, Global};
use values::Val;

/// What the effect map of a number makes of a value over changes of a document; `None`: the effect is dropped. `Err`: out of
/// memory.
pub fn map_effect(
    alloc: Global,
    number: u32,
    value: Val,
    changes: &Desc,
) -> Result<Option<Val>, AllocError>
    ensures { IfOk result (λ mapped. mapped ≡ map_effect number value changes.now) }
{
    match value {
        Val::Plain(plain) => match mapped_value(
            alloc,
            KeptMap::of_number(number),
            &plain,
            changes,
        )? {
            Some(mapped) => Ok(Some(Val::Plain(mapped))),
            None => Ok(None),
        },
        other => Ok(Some(other)),
    }
}
