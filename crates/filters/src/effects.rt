// Effects after changes.
ghost use Rattle.std.specs.Prelude.{◌≡◌, IfOk};
ghost use Rattle.transaction.specs.Effects.{HasMaps, moved_effect, moved_effects};
ghost use Rattle.values.specs.Views.{AreWithin};
ghost use Rattle.values.specs.Whole.{IsWhole};

use change_desc::Desc;
use listed::Listed;
use std::alloc::{AllocError, Global};
use transaction::{Effect, EffectKinds};
use values::{Kit, Meanings, Val};

/// An effect after changes, unless its kind's map drops it.
fn moved_effect<M: Meanings>(
    kit: &Kit<M>,
    kinds: &EffectKinds,
    changes: &Desc,
    effect: Effect<Val>,
) -> Result<Option<Effect<Val>>, AllocError>
    requires whole { IsWhole M.rules kit.now }
    requires maps { HasMaps M.rules.effect_maps kinds.now.maps }
    requires within { AreWithin changes.now }
    ensures { IfOk result (λ moved. moved ≡ moved_effect kinds.now M.rules.map_effect changes.now effect) }
{
    match effect {
        Effect::Kind { id, value } => match kinds.map_of(id) {
            None => Ok(Some(Effect::Kind { id, value })),
            Some(number) => match kit.effect_map(number).call(value, changes)? {
                None => Ok(None),
                Some(value) => Ok(Some(Effect::Kind { id, value })),
            },
        },
        other => Ok(Some(other)),
    }
}

/// Effects after changes, without those that a map drops. `Err`: out of memory.
pub(crate) fn moved_effects<M: Meanings>(
    alloc: Global,
    kit: &Kit<M>,
    kinds: &EffectKinds,
    changes: &Desc,
    effects: Listed<Effect<Val>>,
) -> Result<Listed<Effect<Val>>, AllocError>
    requires whole { IsWhole M.rules kit.now }
    requires maps { HasMaps M.rules.effect_maps kinds.now.maps }
    requires within { AreWithin changes.now }
    ensures { IfOk result (λ moved. moved ≡ moved_effects kinds.now M.rules.map_effect changes.now effects) }
{
    let mut moved = Listed::empty(alloc);
    for effect in effects.into_vec() {
        if let Some(next) = moved_effect(kit, kinds, changes, effect)? {
            moved.push(next)?;
        }
    }
    Ok(moved)
}
