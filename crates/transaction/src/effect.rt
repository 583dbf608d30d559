ghost use Rattle.std.specs.Prelude.{IfOk, ◌≡◌};
ghost use Rattle.transaction.specs.Effects.{moved_effect, moved_effects};
ghost use Rattle.transaction.specs.Frames.{AreWithin, IsFrame};
ghost use Rattle.transaction.specs.Refusals.{unknown_in, unknown_refusal};

use crate::effect_kinds::EffectKinds;
use crate::effect_maps::EffectMaps;
use crate::error::TransactionError;
use crate::frame::Frame;
use change_desc::Desc;
use listed::Listed;
use std::alloc::{AllocError, Global};

/// What a transaction asks for beside its changes (Reference Manual, StateEffect). `V` is the type of values; nodes of the
/// extension tree stand by their ids.
#[derive(Drop)]
pub enum Effect<V> {
    /// A value for those that listen to a declared effect kind.
    Kind { id: u32, value: V },
    /// The content of a compartment is this node from now on (Reference Manual, Compartment.reconfigure).
    Reconfigure { compartment: u32, to: u32 },
    /// The configuration is made of these nodes from now on (Reference Manual, StateEffect.reconfigure).
    Root(Listed<u32>),
    /// This node is added to the configuration (Reference Manual, StateEffect.appendConfig).
    Append(u32),
}

/// The effect after changes: its kind's map may change its value or drop it, and without a map it stays, as an effect on the
/// configuration does.
fn moved_effect<V: Drop, M: EffectMaps<V>>(
    effect: Effect<V>,
    changes: &Desc,
    frame: &Frame<M>,
) -> Result<Option<Effect<V>>, AllocError>
    requires frame { IsFrame (M.can_map frame.now.maps.now) (M.map_count frame.now.maps.now) frame.now.kinds.now frame.now.max }
    requires within { AreWithin frame.now.max changes.now }
    ensures { IfOk result (λ moved. moved ≡ moved_effect frame.now.kinds.now (M.map_value frame.now.maps.now) changes.now effect) }
{
    match effect {
        Effect::Kind { id, value } => match frame.kinds.map_of(id) {
            None => Ok(Some(Effect::Kind { id, value })),
            Some(number) => match frame.maps.map(number, value, changes)? {
                None => Ok(None),
                Some(value) => Ok(Some(Effect::Kind { id, value })),
            },
        },
        other => Ok(Some(other)),
    }
}

/// The effects after changes, without those that a map drops.
pub(crate) fn moved_effects<V: Drop, M: EffectMaps<V>>(
    alloc: Global,
    effects: Listed<Effect<V>>,
    changes: &Desc,
    frame: &Frame<M>,
) -> Result<Listed<Effect<V>>, AllocError>
    requires frame { IsFrame (M.can_map frame.now.maps.now) (M.map_count frame.now.maps.now) frame.now.kinds.now frame.now.max }
    requires within { AreWithin frame.now.max changes.now }
    ensures { IfOk result (λ moved. moved ≡ moved_effects frame.now.kinds.now (M.map_value frame.now.maps.now) changes.now effects) }
{
    let mut moved = Listed::empty(alloc);
    for effect in effects.into_vec() {
        if let Some(next) = moved_effect(effect, changes, frame)? {
            moved.push(next)?;
        }
    }
    Ok(moved)
}

/// The refusal of the first effect that names an unknown kind or compartment.
pub(crate) fn first_unknown<V>(
    effects: &[Effect<V>],
    kinds: &EffectKinds,
) -> Option<TransactionError>
    ensures { result ≡ unknown_in kinds.now effects.now }
{
    for effect in effects {
        if let Some(error) = unknown_refusal(effect, kinds) {
            return Some(error);
        }
    }
    None
}

/// The refusal of an effect that names an unknown kind or compartment.
fn unknown_refusal<V>(effect: &Effect<V>, kinds: &EffectKinds) -> Option<TransactionError>
    ensures { result ≡ unknown_refusal kinds.now effect.now }
{
    match effect {
        Effect::Kind { id, value: _ } if !kinds.knows(*id) => {
            Some(TransactionError::UnknownEffect { id: *id })
        }
        Effect::Reconfigure { compartment, to: _ } if *compartment >= kinds.compartments => {
            Some(TransactionError::UnknownCompartment { id: *compartment })
        }
        _ => None,
    }
}
