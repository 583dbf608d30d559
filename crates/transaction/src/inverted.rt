ghost use Rattle.std.specs.Prelude.{IfOk, ◌≡◌};
ghost use Rattle.std.specs.List.{list_any};
ghost use Rattle.transaction.specs.Inverted.{inverted_effect, inverted_effects, inverted_over, kept_effect};
ghost use Rattle.transaction.specs.PrivatePairs.{has_pair};

use crate::draft::Draft;
use crate::effect::Effect;
use crate::effect_kinds::{EffectKinds, number_at};
use crate::effect_value::EffectValue;
use cm_plain::{KeptEffect, KeptMap, Plain};
use kept_effects::ValueMapper;
use listed::Listed;
use std::alloc::{AllocError, Global};

impl<V: EffectValue> Draft<V> {
    /// What undoes its effects where its changes are undone (Reference Manual, invertedEffects): for each effect in reverse
    /// order whose kind has a pair and whose value is plain, one of the paired kind, its value mapped over the way back, unless
    /// the map drops it. `pairs` has, by kind, the kind that undoes it, if there is one. `Err`: out of memory.
    pub fn inverted_effects(
        &self,
        alloc: Global,
        kinds: &EffectKinds,
        pairs: &[Option<u32>],
    ) -> Result<Listed<KeptEffect>, AllocError>
        ensures { IfOk result (λ kept. kept ≡ inverted_effects V.plain kinds.now.maps pairs.now self.now) }
    {
        let effects = self.effects.as_slice();
        if !any_has_pair(effects, pairs) {
            return Ok(Listed::empty(alloc));
        }
        let over = self.changes.desc()?;
        let back = over.inverted()?;
        let mapper = ValueMapper::new(alloc, &back)?;
        inverted_over(alloc, effects, &mapper, kinds, pairs)
    }
}

/// Whether the kind of an effect has a pair.
fn has_pair<V>(effect: &Effect<V>, pairs: &[Option<u32>]) -> bool
    ensures { result ≡ has_pair pairs.now effect.now }
{
    match effect {
        Effect::Kind { id, value: _ } => number_at(pairs, *id).is_some(),
        _ => false,
    }
}

/// Whether the kind of some effect has a pair.
fn any_has_pair<V>(effects: &[Effect<V>], pairs: &[Option<u32>]) -> bool
    ensures { result ≡ list_any (has_pair pairs.now) effects.now }
{
    for effect in effects {
        if has_pair(effect, pairs) {
            return true;
        }
    }
    false
}

/// The effects that undo these, over the way back.
fn inverted_over<V: EffectValue>(
    alloc: Global,
    effects: &[Effect<V>],
    back: &ValueMapper,
    kinds: &EffectKinds,
    pairs: &[Option<u32>],
) -> Result<Listed<KeptEffect>, AllocError>
    ensures { IfOk result (λ kept. kept ≡ inverted_over V.plain kinds.now.maps pairs.now back.now effects.now) }
{
    let mut kept = Listed::empty(alloc);
    for effect in effects.iter().rev() {
        if let Some(next) = inverted_effect(alloc, effect, back, kinds, pairs)? {
            kept.push(next)?;
        }
    }
    Ok(kept)
}

/// The effect that undoes one, over the way back, if there is one.
fn inverted_effect<V: EffectValue>(
    alloc: Global,
    effect: &Effect<V>,
    back: &ValueMapper,
    kinds: &EffectKinds,
    pairs: &[Option<u32>],
) -> Result<Option<KeptEffect>, AllocError>
    ensures { IfOk result (λ kept. kept ≡ inverted_effect V.plain kinds.now.maps pairs.now back.now effect.now) }
{
    match effect {
        Effect::Kind { id, value } => match (number_at(pairs, *id), value.as_plain()) {
            (Some(pair), Some(plain)) => kept_effect(alloc, pair, kinds.map_of(pair), plain, back),
            _ => Ok(None),
        },
        _ => Ok(None),
    }
}

/// An effect of a kind with this map, its value mapped, unless the map drops it.
fn kept_effect(
    alloc: Global,
    id: u32,
    number: Option<u32>,
    value: &Plain,
    changes: &ValueMapper,
) -> Result<Option<KeptEffect>, AllocError>
    ensures { IfOk result (λ kept. kept ≡ kept_effect id number value.now changes.now) }
{
    let map = match number {
        Some(number) => KeptMap::of_number(number),
        None => None,
    };
    let mapped = changes.mapped(alloc, map, value)?;
    Ok(mapped.map(|value| KeptEffect { id, map, value }))
}
