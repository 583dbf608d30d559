// Transaction extenders.
ghost use Rattle.std.specs.Prelude.{All, Err, IfErr, IfOk, Ok, [], ◌≡◌, ◌≢◌};
ghost use Rattle.transaction.specs.Numbers.{IsNumber};
ghost use Rattle.values.specs.InRange.{IsInRange};
ghost use Rattle.values.specs.Whole.{IsWhole};
ghost use Rattle.filters.specs.Extended.{added, extended, extended_by, extended_with};
ghost use Rattle.filters.specs.Facets.{AreFacets, facets_of};
ghost use Rattle.filters.specs.Outcomes.{in_turn};
ghost use Rattle.filters.specs.Starts.{IsStart, StartsIn, start_of};

use crate::check::unknown_in;
use crate::filter_facets::FilterFacets;
use crate::lists::joined;
use crate::numbers::lowest_first;
use crate::start::Start;
use crate::view::shown;
use listed::Listed;
use std::alloc::{AllocError, Global};
use transaction::{Draft, TransactionError};
use values::{Extension, Kit, Meanings, TrView, Val};

/// A draft with what an extender adds.
fn added(
    alloc: Global,
    draft: Box<Draft<Val>>,
    extension: Extension,
) -> Result<Box<Draft<Val>>, AllocError>
    ensures { IfOk result (λ d. d.value ≡ added extension draft.value) }
{
    let draft = Box::into_inner(draft);
    let effects = joined(draft.effects, extension.effects)?;
    let annotations = joined(draft.annotations, extension.annotations)?;
    let draft = Draft {
        changes: draft.changes,
        selection: draft.selection,
        effects,
        annotations,
        filter: draft.filter,
    };
    draft.boxed(alloc)
}

/// The same, unless an effect is refused.
fn extended_with(
    alloc: Global,
    start: &Start<'_>,
    extension: Extension,
    draft: Box<Draft<Val>>,
) -> Result<Box<Draft<Val>>, TransactionError>
    requires { StartsIn (start_of start.now) draft.value }
    ensures draft { IfOk result (λ d. extended_with (start_of start.now) extension draft.value ≡ Ok d.value) }
    ensures starts { IfOk result (λ d. StartsIn (start_of start.now) d.value) }
    ensures refused { IfErr result (λ error. error ≢ TransactionError.NoMemory → extended_with (start_of start.now) extension draft.value ≡ Err error) }
{
    match unknown_in(extension.effects.as_slice(), start.kinds) {
        Some(error) => Err(error),
        None => Ok(added(alloc, draft, extension)?),
    }
}

/// What the extender of a number makes of a draft.
fn extended_by<M: Meanings>(
    alloc: Global,
    kit: &Kit<M>,
    facets: &FilterFacets<'_>,
    start: &Start<'_>,
    transaction: &TrView,
    number: u32,
    draft: Box<Draft<Val>>,
) -> Result<Box<Draft<Val>>, TransactionError>
    requires whole { IsWhole M.rules kit.now }
    requires number { IsNumber M.rules.extenders number }
    requires in_range { IsInRange facets.now.filter_data.now }
    requires draft { StartsIn (start_of start.now) draft.value }
    ensures draft { IfOk result (λ d. extended_by M.rules (facets_of facets.now) (start_of start.now) transaction.now number draft.value ≡ Ok d.value) }
    ensures starts { IfOk result (λ d. StartsIn (start_of start.now) d.value) }
    ensures refused { IfErr result (λ error. error ≢ TransactionError.NoMemory → extended_by M.rules (facets_of facets.now) (start_of start.now) transaction.now number draft.value ≡ Err error) }
{
    let extension = kit.extender(number).call(transaction, facets.filter_data)?;
    extended_with(alloc, start, extension, draft)
}

/// What comes of a draft by extenders, asked one after the other.
fn extended_in_turn<M: Meanings>(
    alloc: Global,
    kit: &Kit<M>,
    facets: &FilterFacets<'_>,
    start: &Start<'_>,
    transaction: &TrView,
    numbers: &[u32],
    draft: Box<Draft<Val>>,
) -> Result<Box<Draft<Val>>, TransactionError>
    requires whole { IsWhole M.rules kit.now }
    requires numbers { All (IsNumber M.rules.extenders) numbers.now }
    requires in_range { IsInRange facets.now.filter_data.now }
    requires draft { StartsIn (start_of start.now) draft.value }
    ensures draft { IfOk result (λ d. in_turn (extended_by M.rules (facets_of facets.now) (start_of start.now) transaction.now) numbers.now draft.value ≡ Ok d.value) }
    ensures starts { IfOk result (λ d. StartsIn (start_of start.now) d.value) }
    ensures refused { IfErr result (λ error. error ≢ TransactionError.NoMemory → in_turn (extended_by M.rules (facets_of facets.now) (start_of start.now) transaction.now) numbers.now draft.value ≡ Err error) }
{
    let mut draft = draft;
    for number in numbers {
        match extended_by(alloc, kit, facets, start, transaction, *number, draft) {
            Ok(next) => draft = next,
            Err(error) => return Err(error),
        }
    }
    Ok(draft)
}

/// What extenders make of a filtered draft (Reference Manual, EditorState.transactionExtender). They are asked from the lowest
/// precedence to the highest, whether filters were asked or not, each on the filtered draft; the effects and annotations that
/// each adds stand after those before. `Err`: the first effect of an unknown kind or on an unknown compartment that an extender
/// answered; or out of memory.
pub fn apply_extenders<M: Meanings>(
    alloc: Global,
    kit: &Kit<M>,
    facets: &FilterFacets<'_>,
    start: &Start<'_>,
    draft: Box<Draft<Val>>,
) -> Result<Box<Draft<Val>>, TransactionError>
    requires whole { IsWhole M.rules kit.now }
    requires facets { AreFacets M.rules (facets_of facets.now) }
    requires start { IsStart (start_of start.now) }
    requires draft { StartsIn (start_of start.now) draft.value }
    ensures draft { IfOk result (λ d. extended M.rules (facets_of facets.now) (start_of start.now) draft.value ≡ Ok d.value) }
    ensures starts { IfOk result (λ d. StartsIn (start_of start.now) d.value) }
    ensures refused { IfErr result (λ error. error ≢ TransactionError.NoMemory → extended M.rules (facets_of facets.now) (start_of start.now) draft.value ≡ Err error) }
{
    let numbers = lowest_first(alloc, facets.transaction_extender)?;
    if numbers.is_empty() {
        return Ok(draft);
    }
    facets.filter_data.known();
    let transaction = shown(alloc, start, Listed::empty(alloc), &draft)?;
    extended_in_turn(alloc, kit, facets, start, &transaction, &numbers, draft)
}
