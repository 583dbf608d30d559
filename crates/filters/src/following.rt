// Specs that follow a draft.
ghost use Rattle.std.specs.Prelude.{Err, IfErr, IfOk, None, Ok, Some, length, ◌≡◌, ◌≢◌};
ghost use Rattle.transaction.specs.Effects.{HasMaps};
ghost use Rattle.transaction.specs.Refusals.{specs_refusal};
ghost use Rattle.values.specs.Whole.{IsWhole};
ghost use Rattle.filters.specs.Filtered.{followed_by};
ghost use Rattle.filters.specs.Outcomes.{unless};
ghost use Rattle.filters.specs.Starts.{IsStart, StartsIn, start_of};

use crate::check::check;
use crate::start::Start;
use std::alloc::Global;
use transaction::{Draft, Frame, Spec, TransactionError, merge};
use values::{Kit, Meanings, Val};

/// A draft and then specs that aren't refused.
fn merged_with<M: Meanings>(
    alloc: Global,
    kit: &Kit<M>,
    start: &Start<'_>,
    draft: Box<Draft<Val>>,
    specs: Vec<Spec<Val>>,
) -> Result<Box<Draft<Val>>, TransactionError>
    requires whole { IsWhole M.rules kit.now }
    requires maps { HasMaps M.rules.effect_maps start.now.kinds.now.maps }
    requires start { IsStart (start_of start.now) }
    requires draft { StartsIn (start_of start.now) draft.value }
    requires accepted { specs_refusal (length start.now.document.now.characters) start.now.max start.now.kinds.now (Some draft.value.changes) specs.items ≡ None }
    ensures draft { IfOk result (λ d. d.value ≡ followed_by M.rules (start_of start.now) draft.value specs.items) }
    ensures starts { IfOk result (λ d. StartsIn (start_of start.now) d.value) }
    ensures memory { IfErr result (λ error. error ≡ TransactionError.NoMemory) }
{
    let frame = Frame {
        len: start.document.len(),
        max: start.max,
        kinds: start.kinds,
        maps: kit,
    };
    let mut draft = draft;
    for spec in specs {
        match merge(alloc, draft, spec, &frame) {
            Ok(next) => draft = next,
            Err(error) => return Err(error),
        }
    }
    Ok(draft)
}

/// A draft and then specs. `Err`: why the specs are refused, or out of memory.
pub(crate) fn followed_by<M: Meanings>(
    alloc: Global,
    kit: &Kit<M>,
    start: &Start<'_>,
    draft: Box<Draft<Val>>,
    specs: Vec<Spec<Val>>,
) -> Result<Box<Draft<Val>>, TransactionError>
    requires whole { IsWhole M.rules kit.now }
    requires maps { HasMaps M.rules.effect_maps start.now.kinds.now.maps }
    requires start { IsStart (start_of start.now) }
    requires draft { StartsIn (start_of start.now) draft.value }
    ensures draft { IfOk result (λ d. unless (specs_refusal (length start.now.document.now.characters) start.now.max start.now.kinds.now (Some draft.value.changes) specs.items) (followed_by M.rules (start_of start.now) draft.value specs.items) ≡ Ok d.value) }
    ensures starts { IfOk result (λ d. StartsIn (start_of start.now) d.value) }
    ensures refused { IfErr result (λ error. error ≢ TransactionError.NoMemory → unless (specs_refusal (length start.now.document.now.characters) start.now.max start.now.kinds.now (Some draft.value.changes) specs.items) (followed_by M.rules (start_of start.now) draft.value specs.items) ≡ Err error) }
{
    match check(
        alloc,
        &draft.changes,
        specs.as_slice(),
        start.kinds,
        start.document.len(),
        start.max,
    ) {
        Err(error) => Err(error),
        Ok(()) => merged_with(alloc, kit, start, draft, specs),
    }
}
