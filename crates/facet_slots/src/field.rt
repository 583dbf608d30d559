// A field after a transition: its value, from its old value and what it reads, and whether it is flagged.
ghost use Rattle.std.specs.Prelude.{◌≡◌, ◌+◌, ◌≤◌, cond, is_none, not, option_copied, unwrap_or, IfOk, IsSomeAnd, MatchOption, None, Some};
ghost use Rattle.values.specs.Vals.{IsOf};
ghost use Rattle.values.specs.Whole.{IsWhole};
ghost use Rattle.values.specs.Stored.{Compares};
ghost use Rattle.facet_slots.specs.Setups.{field_at};
ghost use Rattle.facet_slots.specs.Scenes.{IsScene, shown as shown_of};
ghost use Rattle.facet_slots.specs.Stepping.{equal_init, kept_value as kept_value_of, created as created_of, enters, updates, rule_of, Enter, Update};
ghost use Rattle.facet_slots.specs.Keeping.{held};
ghost use Rattle.facet_slots.specs.Lawful.{IsLawfulField};
ghost use Rattle.facet_slots.specs.Flags.{field_flag, same_value};
ghost use Rattle.facet_slots.specs.Due.{field_calls};
ghost use Rattle.facet_slots.specs.Found.{scene_of};
ghost use Rattle.facet_slots.specs.Lent.{present_of, setup_of, state_in, transition_of, values_in};

use crate::deps::shown;
use crate::heard::heard;
use crate::kept::Kept;
use crate::setup::{Present, Setup};
use crate::shelf::Shelf;
use crate::transition::Transition;
use configuration::Vertex;
use std::alloc::{AllocError, Global};
use std::sync::ledger::Ledger;
use steps::Steps;
use values::{Comparer, Kit, Meanings, Scene, SharedVal, TrView, UpdateView, Val};

/// Whether two first values are the same, or there are none.
fn same_init(was: Option<&Val>, is: Option<&Val>) -> bool
    ensures { result ≡ equal_init (option_copied was.entry) (option_copied is.entry) }
{
    match was {
        Some(was) => match is {
            Some(is) => was.same(is),
            None => false,
        },
        None => is.is_none(),
    }
}

/// The value that a field keeps as it enters a configuration.
fn kept_value<'a>(
    old_setup: &Setup,
    old: &'a Kept,
    place: u32,
    field: &Present,
) -> Option<&'a SharedVal>
    ensures { MatchOption result (kept_value_of (state_in old_setup.now old.now) place (present_of field.now) ≡ None) (λ v. kept_value_of (state_in old_setup.now old.now) place (present_of field.now) ≡ Some v.now) }
{
    match old_setup.field(place) {
        Some(was) => {
            if same_init(was.init, field.init) {
                old.shelf.field(place)
            } else {
                None
            }
        }
        None => None,
    }
}

/// A field that is created, as its first value or else by its creator.
fn created<M: Meanings, L: Ledger>(
    alloc: Global,
    kit: &Kit<M>,
    scene: &Scene,
    field: &Present,
    shelf: &Shelf,
    calls: &mut Steps<L>,
) -> Result<Val, AllocError>
    requires whole { IsWhole M.rules kit.now }
    requires scene { IsScene (scene_of scene.now) }
    requires lawful { IsLawfulField M.rules (present_of field.now) }
    ensures value { IfOk result (λ v. v ≡ created_of M.rules (present_of field.now) (shown_of (scene_of scene.now) (held shelf.now.facets shelf.now.fields) (present_of field.now).def.reads)) }
    ensures cost { calls.new ≤ calls.old + cond (is_none (present_of field.now).init) 1 0 }
{
    match field.init {
        Some(value) => value.try_copy(alloc),
        None => {
            let deps = shown(alloc, scene, field.def.reads.as_slice(), shelf)?;
            kit.creator(field.def.create).call(&deps, calls)
        }
    }
}

/// A field after a transition: its value, and whether it is flagged.
#[derive(Drop)]
pub struct FieldFound {
    pub value: SharedVal,
    pub flag: bool,
}

/// What an updater's answer makes of a field; the old value is shared where it stays. It is flagged where the comparer doesn't say
/// 'same' of the old value and the new one.
#[inline(always)]
fn answered<M: Meanings>(
    alloc: Global,
    comparer: &Comparer<M>,
    old: &SharedVal,
    answer: Option<Val>,
) -> Result<FieldFound, AllocError>
    requires compares { Compares M.rules comparer.now }
    ensures value { IfOk result (λ found. found.value ≡ unwrap_or answer old.now) }
    ensures flag { IfOk result (λ found. found.flag ≡ not (M.rules.compare comparer.now.number old.now found.value)) }
{
    match answer {
        Some(value) => {
            let value = SharedVal::new(alloc, value)?;
            let flag = !comparer.call(old.value(), value.value());
            Ok(FieldFound { value, flag })
        }
        None => {
            let value = old.share()?;
            let flag = !(comparer.is_reflexive() || comparer.call(old.value(), old.value()));
            Ok(FieldFound { value, flag })
        }
    }
}

/// A field that enters a configuration: it keeps its value, or else is created.
fn entered<M: Meanings, L: Ledger>(
    alloc: Global,
    kit: &Kit<M>,
    old_setup: &Setup,
    old: &Kept,
    scene: &Scene,
    place: u32,
    field: &Present,
    shelf: &Shelf,
    calls: &mut Steps<L>,
) -> Result<FieldFound, AllocError>
    requires whole { IsWhole M.rules kit.now }
    requires scene { IsScene (scene_of scene.now) }
    requires lawful { IsLawfulField M.rules (present_of field.now) }
    ensures value { IfOk result (λ found. found.value ≡ enters M.rules (state_in old_setup.now old.now) place (present_of field.now) (shown_of (scene_of scene.now) (held shelf.now.facets shelf.now.fields) (present_of field.now).def.reads)) }
    ensures flag { IfOk result (λ found. found.flag ≡ field_flag M.rules (field_at (setup_of old_setup.now) place) (Some (present_of field.now)) (values_in old.now (Vertex.Field place)) (Some found.value)) }
    ensures cost { calls.new ≤ calls.old + field_calls Enter (state_in old_setup.now old.now) place (present_of field.now) }
{
    match kept_value(old_setup, old, place, field) {
        Some(value) => answered(alloc, kit.comparer(field.def.compare), value, None),
        None => {
            let value = SharedVal::new(alloc, created(alloc, kit, scene, field, shelf, calls)?)?;
            Ok(FieldFound { value, flag: true })
        }
    }
}

/// What the updater of a field is shown.
fn update_view(
    alloc: Global,
    transaction: &TrView,
    scene: &Scene,
    field: &Present,
    shelf: &Shelf,
) -> Result<UpdateView, AllocError>
    requires scene { IsScene (scene_of scene.now) }
    ensures transaction { IfOk result (λ view. view.transaction ≡ heard_of (present_of field.now).def.listens transaction.now) }
    ensures deps { IfOk result (λ view. view.deps ≡ shown_of (scene_of scene.now) (held shelf.now.facets shelf.now.fields) (present_of field.now).def.reads) }
{
    Ok(UpdateView {
        transaction: heard(alloc, transaction, field.def.listens.as_slice())?,
        deps: shown(alloc, scene, field.def.reads.as_slice(), shelf)?,
    })
}

ghost use Rattle.facet_slots.specs.Stepping.{heard as heard_of};

/// A field that a transaction updates, flagged by its comparer alone.
fn updated<M: Meanings, L: Ledger>(
    alloc: Global,
    kit: &Kit<M>,
    transaction: &TrView,
    old_setup: &Setup,
    old: &Kept,
    scene: &Scene,
    place: u32,
    field: &Present,
    shelf: &Shelf,
    calls: &mut Steps<L>,
) -> Result<FieldFound, AllocError>
    requires whole { IsWhole M.rules kit.now }
    requires scene { IsScene (scene_of scene.now) }
    requires lawful { IsLawfulField M.rules (present_of field.now) }
    requires fits { IsSomeAnd (values_in old.now (Vertex.Field place)) (IsOf (M.rules.update_shape (present_of field.now).def.update)) }
    ensures value { IfOk result (λ found. found.value ≡ updates M.rules (state_in old_setup.now old.now) transaction.now place (present_of field.now) (shown_of (scene_of scene.now) (held shelf.now.facets shelf.now.fields) (present_of field.now).def.reads)) }
    ensures flag { IfOk result (λ found. found.flag ≡ not (same_value M.rules (present_of field.now).def.compare (values_in old.now (Vertex.Field place)) (Some found.value))) }
    ensures cost { calls.new ≤ calls.old + 1 }
{
    match old.shelf.field(place) {
        Some(value) => {
            let view = update_view(alloc, transaction, scene, field, shelf)?;
            let answer = kit
                .updater(field.def.update)
                .call(value.value(), &view, calls)?;
            answered(alloc, kit.comparer(field.def.compare), value, answer)
        }
        None => unreachable!(),
    }
}

/// A present field after a transition, and whether it is flagged. Of a transaction the flag is said where the old configuration has
/// the same field at this place, since then only the values are compared. `Err`: out of memory.
pub fn field_found<M: Meanings, L: Ledger>(
    alloc: Global,
    kit: &Kit<M>,
    transition: &Transition,
    old_setup: &Setup,
    old: &Kept,
    scene: &Scene,
    place: u32,
    field: &Present,
    shelf: &Shelf,
    calls: &mut Steps<L>,
) -> Result<FieldFound, AllocError>
    requires whole { IsWhole M.rules kit.now }
    requires scene { IsScene (scene_of scene.now) }
    requires lawful { IsLawfulField M.rules (present_of field.now) }
    requires fits { (t : TransactionView) → transition_of transition.now ≡ Update t → IsSomeAnd (values_in old.now (Vertex.Field place)) (IsOf (M.rules.update_shape (present_of field.now).def.update)) }
    ensures value { IfOk result (λ found. found.value ≡ rule_of M.rules (transition_of transition.now) (state_in old_setup.now old.now) place (present_of field.now) (shown_of (scene_of scene.now) (held shelf.now.facets shelf.now.fields) (present_of field.now).def.reads)) }
    ensures flag { IfOk result (λ found. ((t : TransactionView) → transition_of transition.now ≡ Update t → field_at (setup_of old_setup.now) place ≡ Some (present_of field.now)) → found.flag ≡ field_flag M.rules (field_at (setup_of old_setup.now) place) (Some (present_of field.now)) (values_in old.now (Vertex.Field place)) (Some found.value)) }
    ensures cost { calls.new ≤ calls.old + field_calls (transition_of transition.now) (state_in old_setup.now old.now) place (present_of field.now) }
{
    match *transition {
        Transition::Enter => entered(
            alloc, kit, old_setup, old, scene, place, field, shelf, calls,
        ),
        Transition::Update(transaction) => updated(
            alloc,
            kit,
            transaction,
            old_setup,
            old,
            scene,
            place,
            field,
            shelf,
            calls,
        ),
    }
}

ghost use Rattle.values.specs.Views.{TransactionView};
