// Change filters.
ghost use Rattle.std.specs.Prelude.{All, Err, IfErr, IfOk, Ok, [], ◌≡◌, ◌≢◌};
ghost use Rattle.transaction.specs.Effects.{HasMaps};
ghost use Rattle.transaction.specs.Numbers.{IsNumber};
ghost use Rattle.values.specs.InRange.{IsInRange};
ghost use Rattle.values.specs.Whole.{IsWhole};
ghost use Rattle.filters.specs.Facets.{ListsNumbers, facets_of, rule_numbers};
ghost use Rattle.filters.specs.Filtered.{change_filtered};
ghost use Rattle.filters.specs.Guards.{both, guarded, guarding};
ghost use Rattle.filters.specs.Shown.{shown_of};
ghost use Rattle.filters.specs.Starts.{IsStart, StartsIn, start_of};

use crate::filter_facets::FilterFacets;
use crate::lists::joined;
use crate::numbers::highest_first;
use crate::parts::{all_dropped, with_parts};
use crate::start::Start;
use crate::view::shown;
use listed::Listed;
use std::alloc::{AllocError, Global};
use transaction::{Draft, TransactionError};
use values::{Guarding, Kit, Meanings, TrView, Val};

/// What a change filter says, and what those of lower precedence say.
fn both(first: Guarding, lower: Guarding) -> Result<Guarding, AllocError>
    ensures { IfOk result (λ said. said ≡ both first lower) }
{
    match (first, lower) {
        (Guarding::All, lower) => Ok(lower),
        (Guarding::Nothing, _) => Ok(Guarding::Nothing),
        (Guarding::Protected(ranges), Guarding::All) => Ok(Guarding::Protected(ranges)),
        (Guarding::Protected(_), Guarding::Nothing) => Ok(Guarding::Nothing),
        (Guarding::Protected(ranges), Guarding::Protected(more)) => {
            Ok(Guarding::Protected(joined(ranges, more)?))
        }
    }
}

/// What change filters say together of a transaction.
fn guarding<M: Meanings>(
    kit: &Kit<M>,
    filter_data: &Val,
    numbers: &[u32],
    transaction: &TrView,
) -> Result<Guarding, AllocError>
    requires whole { IsWhole M.rules kit.now }
    requires numbers { All (IsNumber M.rules.change_guards) numbers.now }
    requires in_range { IsInRange filter_data.now }
    ensures { IfOk result (λ said. said ≡ guarding M.rules filter_data.now transaction.now numbers.now) }
{
    let mut said = Guarding::All;
    for number in numbers {
        let answer = kit.change_guard(*number).call(transaction, filter_data)?;
        said = both(said, answer)?;
        if let Guarding::Nothing = said {
            return Ok(said);
        }
    }
    Ok(said)
}

/// What change filters say together of a draft.
fn said_of<M: Meanings>(
    alloc: Global,
    kit: &Kit<M>,
    facets: &FilterFacets<'_>,
    start: &Start<'_>,
    draft: &Draft<Val>,
) -> Result<Guarding, AllocError>
    requires whole { IsWhole M.rules kit.now }
    requires numbers { ListsNumbers M.rules.change_guards facets.now.change_filter.now }
    requires start { IsStart (start_of start.now) }
    requires draft { StartsIn (start_of start.now) draft.now }
    ensures { IfOk result (λ said. said ≡ guarding M.rules facets.now.filter_data.now (shown_of (start_of start.now) [] draft.now) (rule_numbers facets.now.change_filter.now)) }
{
    let numbers = highest_first(alloc, facets.change_filter)?;
    if numbers.is_empty() {
        return Ok(Guarding::All);
    }
    facets.filter_data.known();
    let transaction = shown(alloc, start, Listed::empty(alloc), draft)?;
    guarding(kit, facets.filter_data, &numbers, &transaction)
}

/// What is kept of a draft.
fn guarded<M: Meanings>(
    alloc: Global,
    kit: &Kit<M>,
    start: &Start<'_>,
    said: Guarding,
    draft: Box<Draft<Val>>,
) -> Result<Box<Draft<Val>>, TransactionError>
    requires whole { IsWhole M.rules kit.now }
    requires maps { HasMaps M.rules.effect_maps start.now.kinds.now.maps }
    requires start { IsStart (start_of start.now) }
    requires draft { StartsIn (start_of start.now) draft.value }
    ensures draft { IfOk result (λ d. guarded M.rules (start_of start.now) said draft.value ≡ Ok d.value) }
    ensures starts { IfOk result (λ d. StartsIn (start_of start.now) d.value) }
    ensures refused { IfErr result (λ error. error ≢ TransactionError.NoMemory → guarded M.rules (start_of start.now) said draft.value ≡ Err error) }
{
    match said {
        Guarding::All => Ok(draft),
        Guarding::Nothing => {
            let parts = all_dropped(alloc, &draft.changes)?;
            with_parts(alloc, kit, start, parts, draft)
        }
        Guarding::Protected(ranges) => {
            let parts = draft.changes.filter(ranges.as_slice())?;
            with_parts(alloc, kit, start, parts, draft)
        }
    }
}

/// What comes of a draft by all change filters.
pub(crate) fn change_filtered<M: Meanings>(
    alloc: Global,
    kit: &Kit<M>,
    facets: &FilterFacets<'_>,
    start: &Start<'_>,
    draft: Box<Draft<Val>>,
) -> Result<Box<Draft<Val>>, TransactionError>
    requires whole { IsWhole M.rules kit.now }
    requires maps { HasMaps M.rules.effect_maps start.now.kinds.now.maps }
    requires numbers { ListsNumbers M.rules.change_guards facets.now.change_filter.now }
    requires start { IsStart (start_of start.now) }
    requires draft { StartsIn (start_of start.now) draft.value }
    ensures draft { IfOk result (λ d. change_filtered M.rules (facets_of facets.now) (start_of start.now) draft.value ≡ Ok d.value) }
    ensures starts { IfOk result (λ d. StartsIn (start_of start.now) d.value) }
    ensures refused { IfErr result (λ error. error ≢ TransactionError.NoMemory → change_filtered M.rules (facets_of facets.now) (start_of start.now) draft.value ≡ Err error) }
{
    let said = said_of(alloc, kit, facets, start, &draft)?;
    guarded(alloc, kit, start, said, draft)
}
