// Transaction filters, and all that filters make of a draft.
ghost use Rattle.std.specs.Prelude.{All, Err, IfErr, IfOk, None, Ok, [], length, ◌≡◌, ◌≢◌};
ghost use Rattle.transaction.specs.Effects.{HasMaps};
ghost use Rattle.transaction.specs.Merging.{merged};
ghost use Rattle.transaction.specs.Numbers.{IsNumber};
ghost use Rattle.transaction.specs.Refusals.{specs_refusal};
ghost use Rattle.values.specs.Whole.{IsWhole};
ghost use Rattle.filters.specs.Facets.{AreFacets, ListsNumbers, facets_of};
ghost use Rattle.filters.specs.Filtered.{answered, filtered, filtered_by, transaction_filtered};
ghost use Rattle.filters.specs.Outcomes.{in_turn, unless};
ghost use Rattle.filters.specs.Shown.{shown_of};
ghost use Rattle.filters.specs.Starts.{IsStart, StartsIn, start_of};

use crate::filter_facets::FilterFacets;
use crate::following::followed_by;
use crate::guards::change_filtered;
use crate::numbers::lowest_first;
use crate::start::Start;
use crate::view::shown;
use listed::Listed;
use std::alloc::{AllocError, Global};
use transaction::{Draft, Frame, Spec, TransactionError, resolve};
use values::{Filtering, Kit, Meanings, Val};

/// What the transaction filter of a number answers of a draft.
fn answer_of<M: Meanings>(
    alloc: Global,
    kit: &Kit<M>,
    facets: &FilterFacets<'_>,
    start: &Start<'_>,
    number: u32,
    draft: &Draft<Val>,
) -> Result<Filtering, AllocError>
    requires whole { IsWhole M.rules kit.now }
    requires number { IsNumber M.rules.transaction_filters number }
    requires start { IsStart (start_of start.now) }
    requires draft { StartsIn (start_of start.now) draft.now }
    ensures { IfOk result (λ answer. answer ≡ M.rules.filter number (shown_of (start_of start.now) [] draft.now) facets.now.filter_data.now) }
{
    facets.filter_data.known();
    let transaction = shown(alloc, start, Listed::empty(alloc), draft)?;
    kit.filter(number).call(&transaction, facets.filter_data)
}

/// Specs, merged over the start document.
fn replaced<M: Meanings>(
    alloc: Global,
    kit: &Kit<M>,
    start: &Start<'_>,
    specs: Vec<Spec<Val>>,
) -> Result<Box<Draft<Val>>, TransactionError>
    requires whole { IsWhole M.rules kit.now }
    requires maps { HasMaps M.rules.effect_maps start.now.kinds.now.maps }
    requires start { IsStart (start_of start.now) }
    ensures draft { IfOk result (λ d. unless (specs_refusal (length start.now.document.now.characters) start.now.max start.now.kinds.now None specs.items) (merged start.now.kinds.now M.rules.map_effect (length start.now.document.now.characters) specs.items) ≡ Ok d.value) }
    ensures starts { IfOk result (λ d. StartsIn (start_of start.now) d.value) }
    ensures refused { IfErr result (λ error. error ≢ TransactionError.NoMemory → unless (specs_refusal (length start.now.document.now.characters) start.now.max start.now.kinds.now None specs.items) (merged start.now.kinds.now M.rules.map_effect (length start.now.document.now.characters) specs.items) ≡ Err error) }
{
    let frame = Frame {
        len: start.document.len(),
        max: start.max,
        kinds: start.kinds,
        maps: kit,
    };
    resolve(alloc, specs, &frame)
}

/// What comes of a draft by an answer.
fn answered<M: Meanings>(
    alloc: Global,
    kit: &Kit<M>,
    start: &Start<'_>,
    answer: Filtering,
    draft: Box<Draft<Val>>,
) -> Result<Box<Draft<Val>>, TransactionError>
    requires whole { IsWhole M.rules kit.now }
    requires maps { HasMaps M.rules.effect_maps start.now.kinds.now.maps }
    requires start { IsStart (start_of start.now) }
    requires draft { StartsIn (start_of start.now) draft.value }
    ensures draft { IfOk result (λ d. answered M.rules (start_of start.now) answer draft.value ≡ Ok d.value) }
    ensures starts { IfOk result (λ d. StartsIn (start_of start.now) d.value) }
    ensures refused { IfErr result (λ error. error ≢ TransactionError.NoMemory → answered M.rules (start_of start.now) answer draft.value ≡ Err error) }
{
    match answer {
        Filtering::Keep => Ok(draft),
        Filtering::Instead(specs) => replaced(alloc, kit, start, specs.into_vec()),
        Filtering::Also(specs) => followed_by(alloc, kit, start, draft, specs.into_vec()),
    }
}

/// What comes of a draft by the transaction filter of a number.
fn filtered_by<M: Meanings>(
    alloc: Global,
    kit: &Kit<M>,
    facets: &FilterFacets<'_>,
    start: &Start<'_>,
    number: u32,
    draft: Box<Draft<Val>>,
) -> Result<Box<Draft<Val>>, TransactionError>
    requires whole { IsWhole M.rules kit.now }
    requires maps { HasMaps M.rules.effect_maps start.now.kinds.now.maps }
    requires number { IsNumber M.rules.transaction_filters number }
    requires start { IsStart (start_of start.now) }
    requires draft { StartsIn (start_of start.now) draft.value }
    ensures draft { IfOk result (λ d. filtered_by M.rules (facets_of facets.now) (start_of start.now) number draft.value ≡ Ok d.value) }
    ensures starts { IfOk result (λ d. StartsIn (start_of start.now) d.value) }
    ensures refused { IfErr result (λ error. error ≢ TransactionError.NoMemory → filtered_by M.rules (facets_of facets.now) (start_of start.now) number draft.value ≡ Err error) }
{
    let answer = answer_of(alloc, kit, facets, start, number, &draft)?;
    answered(alloc, kit, start, answer, draft)
}

/// What comes of a draft by transaction filters, asked one after the other.
fn filtered_in_turn<M: Meanings>(
    alloc: Global,
    kit: &Kit<M>,
    facets: &FilterFacets<'_>,
    start: &Start<'_>,
    numbers: &[u32],
    draft: Box<Draft<Val>>,
) -> Result<Box<Draft<Val>>, TransactionError>
    requires whole { IsWhole M.rules kit.now }
    requires maps { HasMaps M.rules.effect_maps start.now.kinds.now.maps }
    requires numbers { All (IsNumber M.rules.transaction_filters) numbers.now }
    requires start { IsStart (start_of start.now) }
    requires draft { StartsIn (start_of start.now) draft.value }
    ensures draft { IfOk result (λ d. in_turn (filtered_by M.rules (facets_of facets.now) (start_of start.now)) numbers.now draft.value ≡ Ok d.value) }
    ensures starts { IfOk result (λ d. StartsIn (start_of start.now) d.value) }
    ensures refused { IfErr result (λ error. error ≢ TransactionError.NoMemory → in_turn (filtered_by M.rules (facets_of facets.now) (start_of start.now)) numbers.now draft.value ≡ Err error) }
{
    let mut draft = draft;
    for number in numbers {
        match filtered_by(alloc, kit, facets, start, *number, draft) {
            Ok(next) => draft = next,
            Err(error) => return Err(error),
        }
    }
    Ok(draft)
}

/// What comes of a draft by all transaction filters.
fn transaction_filtered<M: Meanings>(
    alloc: Global,
    kit: &Kit<M>,
    facets: &FilterFacets<'_>,
    start: &Start<'_>,
    draft: Box<Draft<Val>>,
) -> Result<Box<Draft<Val>>, TransactionError>
    requires whole { IsWhole M.rules kit.now }
    requires maps { HasMaps M.rules.effect_maps start.now.kinds.now.maps }
    requires numbers { ListsNumbers M.rules.transaction_filters facets.now.transaction_filter.now }
    requires start { IsStart (start_of start.now) }
    requires draft { StartsIn (start_of start.now) draft.value }
    ensures draft { IfOk result (λ d. transaction_filtered M.rules (facets_of facets.now) (start_of start.now) draft.value ≡ Ok d.value) }
    ensures starts { IfOk result (λ d. StartsIn (start_of start.now) d.value) }
    ensures refused { IfErr result (λ error. error ≢ TransactionError.NoMemory → transaction_filtered M.rules (facets_of facets.now) (start_of start.now) draft.value ≡ Err error) }
{
    let numbers = lowest_first(alloc, facets.transaction_filter)?;
    filtered_in_turn(alloc, kit, facets, start, &numbers, draft)
}

/// What filters make of a draft (Reference Manual, EditorState.changeFilter, EditorState.transactionFilter). Change filters are
/// asked from the highest precedence to the lowest which changes stay; a given selection and the effects are mapped over what
/// they drop. Then transaction filters are asked from the lowest precedence to the highest, each on what those before it left:
/// it stays, or specs stand in its place or follow it. Where the draft says so, neither kind is asked. `Err`: what the changes
/// that stay lead to is too long; else the first refusal of specs that a filter answered, which are those of `resolve`; or
/// out of memory.
pub fn apply_filters<M: Meanings>(
    alloc: Global,
    kit: &Kit<M>,
    facets: &FilterFacets<'_>,
    start: &Start<'_>,
    draft: Box<Draft<Val>>,
) -> Result<Box<Draft<Val>>, TransactionError>
    requires whole { IsWhole M.rules kit.now }
    requires maps { HasMaps M.rules.effect_maps start.now.kinds.now.maps }
    requires facets { AreFacets M.rules (facets_of facets.now) }
    requires start { IsStart (start_of start.now) }
    requires draft { StartsIn (start_of start.now) draft.value }
    ensures draft { IfOk result (λ d. filtered M.rules (facets_of facets.now) (start_of start.now) draft.value ≡ Ok d.value) }
    ensures starts { IfOk result (λ d. StartsIn (start_of start.now) d.value) }
    ensures refused { IfErr result (λ error. error ≢ TransactionError.NoMemory → filtered M.rules (facets_of facets.now) (start_of start.now) draft.value ≡ Err error) }
{
    if !draft.filter {
        return Ok(draft);
    }
    match change_filtered(alloc, kit, facets, start, draft) {
        Ok(kept) => transaction_filtered(alloc, kit, facets, start, kept),
        Err(error) => Err(error),
    }
}
