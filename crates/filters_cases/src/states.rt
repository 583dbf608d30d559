ghost use Rattle.std.specs.Prelude.{IfOk, IsTrue, length, ◌≤◌};
ghost use Rattle.line_tree.specs.Text.{max_len};
ghost use Rattle.transaction.specs.Effects.{HasMaps};
ghost use Rattle.values.specs.Shipped.{shipped};
ghost use Rattle.values.specs.Whole.{IsWhole};
ghost use Rattle.filters.specs.Facets.{AreFacets, ListsNumbers, facets_of};
ghost use Rattle.filters.specs.Starts.{IsStart, StartsIn, start_of};

use crate::drafts::{Done, kinds, spec, text};
use cm_plain::{Plain, Shape};
use filters::{FilterFacets, Start, apply_extenders, apply_filters};
use line_tree::{MAX_LEN, Text};
use selection::Selection;
use shipped_rules::Shipped;
use std::alloc::{AllocError, Global};
use std::test::Fail;
use transaction::{Draft, Effect, Frame, TransactionError, resolve};
use values::{Kit, Val};

/// The values of the facets that filters go by: rule numbers, and the numbers or pairs of `filterData`.
#[derive(Clone, Copy)]
pub(crate) struct Rules {
    pub(crate) guards: &'static [i64],
    pub(crate) filters: &'static [i64],
    pub(crate) extenders: &'static [i64],
    pub(crate) limit: Option<i64>,
    pub(crate) protected: &'static [(i64, i64)],
}

/// A start document with a cursor at its start, what is done in it, and under which rules.
#[derive(Clone, Copy)]
pub(crate) struct Case {
    pub(crate) start: &'static str,
    /// How many characters a document may have.
    pub(crate) max: u32,
    /// Whether effect kinds are declared.
    pub(crate) kinds: bool,
    pub(crate) done: Done,
    pub(crate) rules: Rules,
}

/// What comes of a case: the new text, the given range, the places of its effects and how many annotations it has; or the refusal.
#[derive(Clone, Copy)]
pub(crate) enum Want {
    Draft {
        text: &'static str,
        range: Option<(u32, u32)>,
        effects: &'static [(u32, i64)],
        annotations: usize,
    },
    /// The length and the limit.
    TooLong(u64, u32),
    /// The id.
    UnknownEffect(u32),
}

fn numbers(alloc: Global, numbers: &[i64]) -> Result<Val, Fail> {
    let mut items = Vec::new(alloc);
    for number in numbers {
        items.push(Plain::Int(*number))?;
    }
    Ok(Val::Plain(Plain::list(items)?))
}

fn pair(alloc: Global, from: i64, to: i64) -> Result<Plain, Fail> {
    let mut items = Vec::new(alloc);
    items.push(Plain::Int(from))?;
    items.push(Plain::Int(to))?;
    Ok(Plain::list(items)?)
}

fn filter_data(alloc: Global, rules: Rules) -> Result<Val, Fail> {
    let mut items = Vec::new(alloc);
    if let Some(limit) = rules.limit {
        items.push(Plain::Int(limit))?;
    }
    for (from, to) in rules.protected {
        items.push(pair(alloc, *from, *to)?)?;
    }
    Ok(Val::Plain(Plain::list(items)?))
}

/// The values of the facets, owned.
#[derive(Drop)]
pub(crate) struct Facets {
    change_filter: Val,
    transaction_filter: Val,
    transaction_extender: Val,
    filter_data: Val,
}

fn facet_values(alloc: Global, rules: Rules) -> Result<Facets, Fail> {
    let change_filter = numbers(alloc, rules.guards)?;
    let transaction_filter = numbers(alloc, rules.filters)?;
    let transaction_extender = numbers(alloc, rules.extenders)?;
    let filter_data = filter_data(alloc, rules)?;
    Ok(Facets {
        change_filter,
        transaction_filter,
        transaction_extender,
        filter_data,
    })
}

/// Whether a value lists numbers from 1 to a count.
fn lists(alloc: Global, value: &Val, count: u32) -> Result<bool, AllocError>
    ensures { IfOk result (λ is. IsTrue is → ListsNumbers count value.now) }
{
    let shape = Shape::list(alloc, Shape::Int(1, i64::from(count)))?;
    Ok(value.is_of(&shape))
}

/// Whether each facet lists numbers of its sort.
fn are_facets(alloc: Global, facets: &FilterFacets<'_>) -> Result<bool, AllocError>
    ensures { IfOk result (λ is. IsTrue is → AreFacets shipped (facets_of facets.now)) }
{
    Ok(
        lists(alloc, facets.change_filter, 3)?
            && lists(alloc, facets.transaction_filter, 4)?
            && lists(alloc, facets.transaction_extender, 3)?,
    )
}

/// The draft of what is done.
fn draft(
    alloc: Global,
    kit: &Kit<Shipped>,
    start: &Start<'_>,
    done: Done,
) -> Result<Box<Draft<Val>>, Fail>
    requires whole { IsWhole shipped kit.now }
    requires maps { HasMaps shipped.effect_maps start.now.kinds.now.maps }
    requires start { IsStart (start_of start.now) }
    ensures { IfOk result (λ d. StartsIn (start_of start.now) d.value) }
{
    let mut specs = Vec::new(alloc);
    specs.push(spec(alloc, done)?)?;
    let frame = Frame {
        len: start.document.len(),
        max: start.max,
        kinds: start.kinds,
        maps: kit,
    };
    Ok(resolve(alloc, specs, &frame)?)
}

/// What filters and extenders make of a draft.
fn made(
    alloc: Global,
    kit: &Kit<Shipped>,
    facets: &FilterFacets<'_>,
    start: &Start<'_>,
    draft: Box<Draft<Val>>,
) -> Result<Box<Draft<Val>>, TransactionError>
    requires whole { IsWhole shipped kit.now }
    requires maps { HasMaps shipped.effect_maps start.now.kinds.now.maps }
    requires facets { AreFacets shipped (facets_of facets.now) }
    requires start { IsStart (start_of start.now) }
    requires draft { StartsIn (start_of start.now) draft.value }
    ensures { IfOk result (λ d. StartsIn (start_of start.now) d.value) }
{
    match apply_filters(alloc, kit, facets, start, draft) {
        Ok(filtered) => apply_extenders(alloc, kit, facets, start, filtered),
        Err(error) => Err(error),
    }
}

fn is_range(selection: &Option<Selection>, want: Option<(u32, u32)>) -> bool {
    match (selection, want) {
        (None, None) => true,
        (Some(selection), Some((anchor, head))) => match selection.ranges() {
            [range] => range.anchor == anchor && range.head == head,
            _ => false,
        },
        _ => false,
    }
}

fn is_effect(effect: &Effect<Val>, want: (u32, i64)) -> bool {
    match effect {
        Effect::Kind {
            id,
            value: Val::Plain(Plain::Int(number)),
        } => *id == want.0 && *number == want.1,
        _ => false,
    }
}

fn are_effects(effects: &[Effect<Val>], want: &[(u32, i64)]) -> bool {
    if effects.len() != want.len() {
        return false;
    }
    for (effect, want) in effects.iter().zip(want) {
        if !is_effect(effect, *want) {
            return false;
        }
    }
    true
}

/// Whether a draft has this text and so many annotations over a start.
fn has_text(
    alloc: Global,
    start: &Start<'_>,
    draft: &Draft<Val>,
    characters: &str,
) -> Result<bool, Fail>
    requires { StartsIn (start_of start.now) draft.now }
{
    let document = draft.changes.apply(start.document)?;
    let wanted = text(alloc, characters)?;
    Ok(document.same(&wanted))
}

/// Whether a draft is what is wanted over a start.
fn is_wanted(alloc: Global, start: &Start<'_>, draft: &Draft<Val>, want: Want) -> Result<bool, Fail>
    requires { StartsIn (start_of start.now) draft.now }
{
    match want {
        Want::Draft {
            text,
            range,
            effects,
            annotations,
        } => Ok(
            has_text(alloc, start, draft, text)?
                && is_range(&draft.selection, range)
                && are_effects(draft.effects.as_slice(), effects)
                && draft.annotations.as_slice().len() == annotations,
        ),
        _ => Ok(false),
    }
}

/// Whether a refusal is what is wanted.
fn is_refusal(error: &TransactionError, want: Want) -> bool {
    match (error, want) {
        (TransactionError::TooLong { len, max }, Want::TooLong(longer, limit)) => {
            *len == longer && *max == limit
        }
        (TransactionError::UnknownEffect { id }, Want::UnknownEffect(unknown)) => *id == unknown,
        _ => false,
    }
}

fn comes_of(
    alloc: Global,
    kit: &Kit<Shipped>,
    facets: &FilterFacets<'_>,
    start: &Start<'_>,
    done: Done,
    want: Want,
) -> Result<bool, Fail>
    requires whole { IsWhole shipped kit.now }
    requires maps { HasMaps shipped.effect_maps start.now.kinds.now.maps }
    requires facets { AreFacets shipped (facets_of facets.now) }
    requires start { IsStart (start_of start.now) }
{
    let draft = draft(alloc, kit, start, done)?;
    match made(alloc, kit, facets, start, draft) {
        Ok(draft) => is_wanted(alloc, start, &draft, want),
        Err(error) => Ok(is_refusal(&error, want)),
    }
}

/// The same with the start document.
fn comes_in(
    alloc: Global,
    kit: &Kit<Shipped>,
    facets: &FilterFacets<'_>,
    document: &Text,
    case: Case,
    want: Want,
) -> Result<bool, Fail>
    requires whole { IsWhole shipped kit.now }
    requires facets { AreFacets shipped (facets_of facets.now) }
    requires short { length document.now.characters ≤ max_len }
{
    let selection = Selection::single(alloc, 0, 0)?;
    let kinds = kinds(alloc, case.kinds)?;
    if case.max > MAX_LEN || document.len() > case.max {
        return Ok(false);
    }
    let start = Start {
        document,
        selection: &selection,
        allows_multiple: false,
        kinds: &kinds,
        max: case.max,
    };
    comes_of(alloc, kit, facets, &start, case.done, want)
}

/// Whether what is wanted comes of a case.
pub(crate) fn comes(alloc: Global, kit: &Kit<Shipped>, case: Case, want: Want) -> Result<bool, Fail>
    requires { IsWhole shipped kit.now }
{
    let facets = facet_values(alloc, case.rules)?;
    let document = text(alloc, case.start)?;
    let lent = FilterFacets {
        change_filter: &facets.change_filter,
        transaction_filter: &facets.transaction_filter,
        transaction_extender: &facets.transaction_extender,
        filter_data: &facets.filter_data,
    };
    if !are_facets(alloc, &lent)? {
        return Ok(false);
    }
    comes_in(alloc, kit, &lent, &document, case, want)
}
