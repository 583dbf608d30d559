// The draft of the specs of an update.
ghost use Rattle.std.specs.Prelude.{◌≡◌, ◌≢◌, Err, IfErr, IfOk, Ok, Some, option_map};
ghost use Rattle.std.specs.Result.{result_err};
ghost use Rattle.transaction.specs.Effects.{HasMaps};
ghost use Rattle.values.specs.Whole.{IsWhole};
ghost use Rattle.registry.specs.Predeclared.{predeclared};
ghost use Rattle.facet_slots.specs.Agreement.{IsGrown};
ghost use Rattle.facet_slots.specs.Lent.{definitions};
ghost use Rattle.facet_slots.specs.Slotted.{plain};
ghost use Rattle.filters.specs.Facets.{AreFacets, facets_of};
ghost use Rattle.filters.specs.Starts.{IsStart, StartsIn, start_of};
ghost use Rattle.state.specs.Drafting.{draft_of, drafted_in, merged_in, rewritten_in, start_in};
ghost use Rattle.state.specs.Refusals.{of_transaction_error};

use crate::start::{filter_facets, start_of};
use crate::state_error::StateError;
use facet_slots::Slots;
use filters::{FilterFacets, Start, apply_extenders, apply_filters};
use registry::Registry;
use std::alloc::Global;
use transaction::{Draft, Frame, Spec, TransactionError, resolve};
use values::{Kit, Meanings, Val};

/// The specs as one draft, or their first refusal.
fn merged<M: Meanings>(
    alloc: Global,
    kit: &Kit<M>,
    start: &Start<'_>,
    specs: Vec<Spec<Val>>,
) -> Result<Box<Draft<Val>>, TransactionError>
    requires whole { IsWhole M.rules kit.now }
    requires maps { HasMaps M.rules.effect_maps start.now.kinds.now.maps }
    requires start { IsStart (start_of start.now) }
    ensures draft { IfOk result (λ d. merged_in M.rules (start_of start.now) specs.items ≡ Ok d.value) }
    ensures starts { IfOk result (λ d. StartsIn (start_of start.now) d.value) }
    ensures refused { IfErr result (λ error. error ≢ TransactionError.NoMemory → merged_in M.rules (start_of start.now) specs.items ≡ Err error) }
{
    let frame = Frame {
        len: start.document.len(),
        max: start.max,
        kinds: start.kinds,
        maps: kit,
    };
    resolve(alloc, specs, &frame)
}

/// What filters and then extenders make of a draft.
fn rewritten<M: Meanings>(
    alloc: Global,
    kit: &Kit<M>,
    facets: &FilterFacets<'_>,
    start: &Start<'_>,
    draft: Box<Draft<Val>>,
) -> Result<Box<Draft<Val>>, TransactionError>
    requires whole { IsWhole M.rules kit.now }
    requires maps { HasMaps M.rules.effect_maps start.now.kinds.now.maps }
    requires facets { AreFacets M.rules (facets_of facets.now) }
    requires start { IsStart (start_of start.now) }
    requires draft { StartsIn (start_of start.now) draft.value }
    ensures draft { IfOk result (λ d. rewritten_in M.rules (facets_of facets.now) (start_of start.now) draft.value ≡ Ok d.value) }
    ensures starts { IfOk result (λ d. StartsIn (start_of start.now) d.value) }
    ensures refused { IfErr result (λ error. error ≢ TransactionError.NoMemory → rewritten_in M.rules (facets_of facets.now) (start_of start.now) draft.value ≡ Err error) }
{
    match apply_filters(alloc, kit, facets, start, draft) {
        Ok(filtered) => apply_extenders(alloc, kit, facets, start, filtered),
        Err(error) => Err(error),
    }
}

/// The specs merged, filtered and extended, or the first refusal.
fn drafted_in<M: Meanings>(
    alloc: Global,
    kit: &Kit<M>,
    facets: &FilterFacets<'_>,
    start: &Start<'_>,
    specs: Vec<Spec<Val>>,
) -> Result<Box<Draft<Val>>, TransactionError>
    requires whole { IsWhole M.rules kit.now }
    requires maps { HasMaps M.rules.effect_maps start.now.kinds.now.maps }
    requires facets { AreFacets M.rules (facets_of facets.now) }
    requires start { IsStart (start_of start.now) }
    ensures draft { IfOk result (λ d. drafted_in M.rules (facets_of facets.now) (start_of start.now) specs.items ≡ Ok d.value) }
    ensures starts { IfOk result (λ d. StartsIn (start_of start.now) d.value) }
    ensures refused { IfErr result (λ error. error ≢ TransactionError.NoMemory → drafted_in M.rules (facets_of facets.now) (start_of start.now) specs.items ≡ Err error) }
{
    match merged(alloc, kit, start, specs) {
        Ok(draft) => rewritten(alloc, kit, facets, start, draft),
        Err(error) => Err(error),
    }
}

/// The draft that the specs of an update come to in the state that it starts in, or the first refusal: of the specs, or of what
/// filters and extenders answered.
pub fn drafted<M: Meanings>(
    alloc: Global,
    kit: &Kit<M>,
    registry: &Registry<M>,
    slots: &Slots<M>,
    specs: Vec<Spec<Val>>,
) -> Result<Box<Draft<Val>>, StateError>
    requires whole { IsWhole M.rules kit.now }
    requires predeclared { IsGrown (definitions predeclared) slots.now.setup.defs }
    ensures draft { IfOk result (λ d. draft_of M.rules registry.now (plain slots.now) specs.items ≡ Ok d.value) }
    ensures starts { IfOk result (λ d. StartsIn (start_in registry.now (plain slots.now)) d.value) }
    ensures refused { IfErr result (λ error. error ≢ StateError.NoMemory → option_map of_transaction_error (result_err (draft_of M.rules registry.now (plain slots.now) specs.items)) ≡ Some error) }
{
    let facets = filter_facets(slots);
    let start = start_of(registry, slots);
    Ok(drafted_in(alloc, kit, &facets, &start, specs)?)
}
