// The value of a facet or a field.
ghost use Rattle.std.specs.Prelude.{◌≡◌, ◌<◌, IfOk, IfSome, map, option_copied, option_map, slice_get};
ghost use Rattle.script.specs.Reading.{Gives};
ghost use Rattle.transaction.specs.Numbers.{IsNumber};
ghost use Rattle.values.specs.Whole.{IsWhole};
ghost use Rattle.session.specs.Asked.{get};
ghost use Rattle.session.specs.Values.{shown, shown_ranges, unfilled, value_of};
ghost use Rattle.session.specs.State.{plain_session, plain_state};

use crate::session::Session;
use crate::started::started;
use cm_plain::Str;
use configuration::FacetDef;
use decoration::DecoSet;
use listed::Listed;
use names::{Valued, Values, found};
use replies::{Answer, Shown, ShownRange};
use script::LineError;
use state::State;
use std::alloc::{AllocError, Global};
use std::marker::Brand;
use std::sync::ledger::{Blank, Ledger};
use steps::Steps;
use values::{Kit, Meanings, Val};

/// The ranges of a set of decorations, as they are answered.
fn shown_ranges(alloc: Global, set: &DecoSet) -> Result<Listed<ShownRange>, AllocError>
    ensures { IfOk result (λ ranges. ranges ≡ shown_ranges set.now) }
{
    let mut ranges = Vec::with_capacity(alloc, set.len())?;
    for range in set.iter() {
        ranges.push(ShownRange {
            from: range.from,
            kind: range.value.kind(),
            to: range.to,
        })?;
    }
    Ok(Listed::new(ranges))
}

/// Each of the sets, as it is answered.
fn shown_layers(alloc: Global, sets: &[DecoSet]) -> Result<Listed<Listed<ShownRange>>, AllocError>
    ensures { IfOk result (λ layers. layers ≡ map shown_ranges sets.now) }
{
    let mut layers = Vec::with_capacity(alloc, sets.len())?;
    for set in sets {
        layers.push(shown_ranges(alloc, set)?)?;
    }
    Ok(Listed::new(layers))
}

/// A value, or that there is none, as it is answered.
fn shown(alloc: Global, value: Option<&Val>) -> Result<Shown, AllocError>
    ensures { IfOk result (λ s. s ≡ shown (option_copied value.entry)) }
{
    match value {
        None => Ok(Shown::Absent),
        Some(Val::Plain(plain)) => Ok(Shown::Plain(plain.try_copy(alloc)?)),
        Some(Val::Ranges(set)) => Ok(Shown::Ranges(shown_ranges(alloc, set)?)),
        Some(Val::Layers(layers)) => Ok(Shown::Layers(shown_layers(alloc, layers.sets())?)),
        Some(Val::History(history)) => {
            let (done, undone) = history.depth();
            Ok(Shown::History {
                done: done as u64,
                undone: undone as u64,
            })
        }
    }
}

/// The value of a facet that has no inputs, since it was declared after the state was made. Its one call is counted nowhere.
fn unfilled<M: Meanings, L: Ledger>(
    kit: &Kit<M>,
    def: &FacetDef,
    blank: Blank,
) -> Result<Val, AllocError>
    requires name { blank.name ≡ L.name }
    requires parts { blank.parts ≡ L.parts }
    requires some { 0 < blank.parts }
    requires whole { IsWhole M.rules kit.now }
    requires number { IsNumber M.rules.combiners def.now.combine }
    ensures { IfOk result (λ v. v ≡ unfilled M.rules def.now) }
{
    let mut calls: Steps<L> = Steps::new(blank);
    kit.combiner(def.combine).call(&[], &mut calls)
}

/// The definition of a facet, if it is declared.
fn facet_def<M: Meanings>(session: &Session<M>, id: u32) -> Option<&FacetDef>
    ensures value { option_copied result ≡ slice_get session.now.world.declared.facets id }
    ensures number { IfSome result (λ def. IsNumber M.rules.combiners def.now.combine) }
{
    session.registry.defs().facets.as_slice().get(id as usize)
}

/// The value of a facet that was declared after the state was made, as it is answered.
fn shown_unfilled<M: Meanings>(
    session: &Session<M>,
    kit: &Kit<M>,
    id: u32,
) -> Result<Shown, AllocError>
    requires whole { IsWhole M.rules kit.now }
    ensures { IfOk result (λ s. s ≡ shown (option_map (unfilled M.rules) (slice_get session.now.world.declared.facets id))) }
{
    match facet_def(session, id) {
        None => Ok(Shown::Absent),
        Some(def) => {
            let value = unfilled::<M, Brand>(kit, def, Blank::new(1))?;
            shown(session.alloc, Some(&value))
        }
    }
}

/// The value of a facet or a field, as it is answered.
fn shown_value<M: Meanings>(
    session: &Session<M>,
    kit: &Kit<M>,
    state: &State<M>,
    thing: Valued,
) -> Result<Shown, AllocError>
    requires whole { IsWhole M.rules kit.now }
    ensures { IfOk result (λ s. s ≡ shown (value_of M.rules session.now.world.declared (plain_state state.now) thing)) }
{
    match thing {
        Valued::Facet(id) if (id as usize) < state.facet_count() => {
            shown(session.alloc, Some(state.facet(id)))
        }
        Valued::Facet(id) => shown_unfilled(session, kit, id),
        Valued::Field(id) => shown(session.alloc, state.field(id)),
    }
}

/// The command `get`. It is refused by `UnknownName` and then by `NoSession`; the only other error is out of memory.
pub(crate) fn get<M: Meanings>(
    session: &Session<M>,
    kit: &Kit<M>,
    name: &Str,
) -> Result<Answer, LineError>
    requires whole { IsWhole M.rules kit.now }
    ensures { Gives (λ a. a) result (get M.rules (plain_session session.now) name.now) }
{
    let thing = found::<Values>(&session.names, name)?;
    let state = started(session)?;
    Ok(Answer::Value(shown_value(session, kit, state, thing)?))
}
