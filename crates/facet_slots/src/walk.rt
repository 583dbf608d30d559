// A transition that calls no rule that isn't due.
ghost use Rattle.std.specs.Prelude.{◌≡◌, ◌+◌, ◌≤◌, ℕ, IfOk, IfSome, OnOk, Some, get_or, length, slice_get, false, []};
ghost use Rattle.values.specs.declared.val.Val.{Val as ValOf};
ghost use Rattle.values.specs.Views.{TransactionView};
ghost use Rattle.values.specs.Whole.{IsWhole};
ghost use Rattle.facet_slots.specs.declared.place.Place.TheVariants as place;
ghost use Rattle.facet_slots.specs.Scenes.{IsScene};
ghost use Rattle.facet_slots.specs.Settling.{values_of};
ghost use Rattle.facet_slots.specs.Shelves.{vertex_lasts, AreLasting, ArePlaced, IsStillIn, StayStill};
ghost use Rattle.facet_slots.specs.Stepping.{rule_of, scene_after, Update};
ghost use Rattle.facet_slots.specs.Making.{IsMadeIn};
ghost use Rattle.facet_slots.specs.Order.{IsOrdered, IsVertex};
ghost use Rattle.facet_slots.specs.Agreement.{Follows};
ghost use Rattle.facet_slots.specs.Lawful.{IsLawful};
ghost use Rattle.facet_slots.specs.Keeping.{held_inputs, inputs_put, Puts};
ghost use Rattle.facet_slots.specs.Flags.{moved_by};
ghost use Rattle.facet_slots.specs.Due.{transition_calls};
ghost use Rattle.facet_slots.specs.Nexts.{next_calls, IsNext};
ghost use Rattle.facet_slots.specs.Lent.{flags_in, scene_in, setup_of, state_in, transition_of, values_in, HasFlagRoomIn, HasRoomIn, IsKeptIn};
ghost use Rattle.facet_slots.specs.Found.{scene_of};

use crate::draft::Draft;
use crate::kept::Kept;
use crate::order::{order_len, vertex_at};
use crate::place::{Place, Places};
use crate::scene_flags::SceneFlags;
use crate::setup::Setup;
use crate::shelf::Shelf;
use crate::slot::Slot;
use crate::step::{step_facet, step_field};
use crate::transition::Transition;
use configuration::Vertex;
use std::alloc::{AllocError, Global};
use std::sync::ledger::Ledger;
use steps::Steps;
use values::{Kit, Meanings, Scene, SharedVal};

/// The value of a facet that has no inputs now and had none before. Takes no memory.
fn value_without_inputs<'a>(old: &'a Kept, setup: &Setup, facet: u32) -> Option<&'a SharedVal>
    ensures value { IfSome result (λ v. values_in old.now (Vertex.Facet facet) ≡ Some v.now) }
    ensures before { IfSome result (λ v. held_inputs old.now.shelf.inputs (Vertex.Facet facet) ≡ []) }
    ensures now { IfSome result (λ v. get_or (setup_of setup.now).config.inputs facet [] ≡ []) }
{
    if setup.inputs(facet).is_empty() && old.shelf.inputs(facet).is_empty() {
        old.shelf.facet(facet)
    } else {
        None
    }
}

/// The places of the facets, from what is kept of the state before: those last that have no inputs now and had none before. No
/// contract says which last: it only decides what states share.
fn places(alloc: Global, old: &Kept, setup: &Setup) -> Result<Places, AllocError>
    ensures count { IfOk result (λ p. length p.list.items ≡ length (setup_of setup.now).defs.facets) }
    ensures placed { IfOk result (λ p. ArePlaced p.slot_count p.list.items) }
    ensures lasting { IfOk result (λ p. (f : ℕ) (v : ValOf) → slice_get p.list.items f ≡ Some (place.Lasting v) → IsStillIn (setup_of setup.now) old.now.shelf f v) }
{
    let facet_count = setup.defs.facet_count();
    let mut list = Vec::with_capacity(alloc, facet_count as usize)?;
    let mut slot_count = 0;
    let mut is_settled = true;
    for facet in 0..facet_count {
        match value_without_inputs(old, setup, facet) {
            Some(value) => {
                value.known();
                list.push(Place::Lasting(value.share()?))?;
            }
            None => {
                list.push(Place::Slot(slot_count))?;
                slot_count += 1;
                is_settled = is_settled && !setup.inputs(facet).is_empty();
            }
        }
    }
    Ok(Places {
        list,
        slot_count,
        is_settled,
    })
}

/// A shelf in which only the facets that last are found.
fn begun(
    alloc: Global,
    transition: &Transition,
    old: &Kept,
    setup: &Setup,
) -> Result<Shelf, AllocError>
    requires still { (t : TransactionView) → transition_of transition.now ≡ Update t → StayStill (setup_of setup.now) old.now.shelf }
    ensures facets { IfOk result (λ shelf. length shelf.facets ≡ length (setup_of setup.now).defs.facets) }
    ensures inputs { IfOk result (λ shelf. length shelf.inputs ≡ length (setup_of setup.now).defs.facets) }
    ensures facet_flags { IfOk result (λ shelf. length shelf.facet_flags ≡ length (setup_of setup.now).defs.facets) }
    ensures fields { IfOk result (λ shelf. length shelf.fields ≡ length (setup_of setup.now).config.fields) }
    ensures field_flags { IfOk result (λ shelf. length shelf.field_flags ≡ length (setup_of setup.now).config.fields) }
    ensures lasting { IfOk result (λ shelf. AreLasting (IsStillIn (setup_of setup.now) old.now.shelf) shelf) }
{
    let field_count = setup.fields().len();
    match *transition {
        Transition::Update(_) => {
            if old.shelf.is_settled(setup.defs.facet_count() as usize) {
                old.shelf.again(alloc, field_count)
            } else {
                Shelf::new(alloc, places(alloc, old, setup)?, field_count)
            }
        }
        Transition::Enter => Shelf::new(alloc, places(alloc, old, setup)?, field_count),
    }
}

/// A draft in which only the facets that last are found.
fn begun_draft(
    alloc: Global,
    transition: &Transition,
    old: &Kept,
    setup: &Setup,
    scene: Scene,
) -> Result<Draft, AllocError>
    requires still { (t : TransactionView) → transition_of transition.now ≡ Update t → StayStill (setup_of setup.now) old.now.shelf }
    ensures scene { IfOk result (λ draft. scene_in draft.kept ≡ scene_of scene) }
    ensures moved { IfOk result (λ draft. draft.moved ≡ moved_by (transition_of transition.now)) }
    ensures room { IfOk result (λ draft. HasRoomIn setup.now draft.kept) }
    ensures flags { IfOk result (λ draft. HasFlagRoomIn setup.now draft.kept) }
    ensures lasting { IfOk result (λ draft. AreLasting (IsStillIn (setup_of setup.now) old.now.shelf) draft.kept.shelf) }
{
    let shelf = begun(alloc, transition, old, setup)?;
    Ok(Draft {
        kept: Kept { scene, shelf },
        moved: moved(transition),
    })
}

/// One facet or field.
fn step<M: Meanings, L: Ledger>(
    alloc: Global,
    kit: &Kit<M>,
    transition: &Transition,
    old_setup: &Setup,
    old: &Kept,
    setup: &Setup,
    vertex: Vertex,
    draft: &Draft,
    calls: &mut Steps<L>,
) -> Result<Slot, AllocError>
    requires whole { IsWhole M.rules kit.now }
    requires old_scene { IsScene (scene_in old.now) }
    requires scene { IsScene (scene_in draft.now.kept) }
    requires kept { IsKeptIn M.rules old_setup.now old.now }
    requires old_lawful { IsLawful M.rules (setup_of old_setup.now) }
    requires lawful { IsLawful M.rules (setup_of setup.now) }
    requires follows { Follows (transition_of transition.now) (setup_of old_setup.now) (setup_of setup.now) }
    ensures next { IfOk result (λ n. IsNext M.rules (transition_of transition.now) (setup_of setup.now) (scene_in draft.now.kept) draft.now.moved (flags_in draft.now.kept) (values_in draft.now.kept) (state_in old_setup.now old.now) (held_inputs old.now.shelf.inputs) vertex n.value n.flag n.inputs) }
    ensures cost { calls.new ≤ calls.old + next_calls M.rules (transition_of transition.now) (setup_of setup.now) (scene_in draft.now.kept) draft.now.moved (flags_in draft.now.kept) (values_in draft.now.kept) (state_in old_setup.now old.now) (held_inputs old.now.shelf.inputs) vertex }
{
    match vertex {
        Vertex::Facet(place) => step_facet(
            alloc, kit, transition, old_setup, old, setup, place, draft, calls,
        ),
        Vertex::Field(place) => step_field(
            alloc, kit, transition, old_setup, old, setup, place, draft, calls,
        ),
    }
}

/// Puts what was found of a facet or field into the draft.
fn store(setup: &Setup, draft: &mut Draft, vertex: Vertex, next: Slot)
    requires vertex { IsVertex (setup_of setup.now) vertex }
    requires room { HasRoomIn setup.now draft.old.kept }
    requires flags { HasFlagRoomIn setup.now draft.old.kept }
    requires lasts { vertex_lasts draft.old.kept.shelf.lasting vertex ≡ false }
    ensures scene { scene_in draft.new.kept ≡ scene_in draft.old.kept }
    ensures moved { draft.new.moved ≡ draft.old.moved }
    ensures room { HasRoomIn setup.now draft.new.kept }
    ensures flags { HasFlagRoomIn setup.now draft.new.kept }
    ensures value { Puts (values_in draft.old.kept) (values_in draft.new.kept) vertex next.value }
    ensures flag { Puts (flags_in draft.old.kept) (flags_in draft.new.kept) vertex next.flag }
    ensures inputs { Puts (held_inputs draft.old.kept.shelf.inputs) (held_inputs draft.new.kept.shelf.inputs) vertex (inputs_put vertex next.inputs) }
    ensures lasting { draft.new.kept.shelf.lasting ≡ draft.old.kept.shelf.lasting }
{
    match vertex {
        Vertex::Facet(facet) => draft.kept.shelf.put_facet(facet, next),
        Vertex::Field(field) => draft.kept.shelf.put_field(field, next),
    }
}

/// Whether a facet or field is found already, as a facet that lasts is.
fn is_found(draft: &Draft, vertex: Vertex) -> bool
    ensures { result ≡ vertex_lasts draft.now.kept.shelf.lasting vertex }
{
    match vertex {
        Vertex::Facet(facet) => draft.kept.shelf.lasts(facet),
        Vertex::Field(_) => false,
    }
}

/// Finds one facet or field and puts it into the draft; nothing is to do of a facet that lasts.
fn advance<M: Meanings, L: Ledger>(
    alloc: Global,
    kit: &Kit<M>,
    transition: &Transition,
    old_setup: &Setup,
    old: &Kept,
    setup: &Setup,
    vertex: Vertex,
    draft: &mut Draft,
    calls: &mut Steps<L>,
) -> Result<(), AllocError>
    requires whole { IsWhole M.rules kit.now }
    requires old_scene { IsScene (scene_in old.now) }
    requires scene { IsScene (scene_in draft.old.kept) }
    requires kept { IsKeptIn M.rules old_setup.now old.now }
    requires old_lawful { IsLawful M.rules (setup_of old_setup.now) }
    requires lawful { IsLawful M.rules (setup_of setup.now) }
    requires follows { Follows (transition_of transition.now) (setup_of old_setup.now) (setup_of setup.now) }
    requires vertex { IsVertex (setup_of setup.now) vertex }
    requires room { HasRoomIn setup.now draft.old.kept }
    requires flags { HasFlagRoomIn setup.now draft.old.kept }
    requires lasting { AreLasting (IsStillIn (setup_of setup.now) old.now.shelf) draft.old.kept.shelf }
    ensures scene { OnOk result (scene_in draft.new.kept ≡ scene_in draft.old.kept) }
    ensures moved { OnOk result (draft.new.moved ≡ draft.old.moved) }
    ensures room { OnOk result (HasRoomIn setup.now draft.new.kept) }
    ensures flags { OnOk result (HasFlagRoomIn setup.now draft.new.kept) }
    ensures lasting { OnOk result (AreLasting (IsStillIn (setup_of setup.now) old.now.shelf) draft.new.kept.shelf) }
    ensures next { OnOk result (IsNext M.rules (transition_of transition.now) (setup_of setup.now) (scene_in draft.old.kept) draft.old.moved (flags_in draft.old.kept) (values_in draft.old.kept) (state_in old_setup.now old.now) (held_inputs old.now.shelf.inputs) vertex (values_in draft.new.kept vertex) (flags_in draft.new.kept vertex) (held_inputs draft.new.kept.shelf.inputs vertex)) }
    ensures value { OnOk result (Puts (values_in draft.old.kept) (values_in draft.new.kept) vertex (values_in draft.new.kept vertex)) }
    ensures flag { OnOk result (Puts (flags_in draft.old.kept) (flags_in draft.new.kept) vertex (flags_in draft.new.kept vertex)) }
    ensures inputs { OnOk result (Puts (held_inputs draft.old.kept.shelf.inputs) (held_inputs draft.new.kept.shelf.inputs) vertex (inputs_put vertex (held_inputs draft.new.kept.shelf.inputs vertex))) }
    ensures cost { calls.new ≤ calls.old + next_calls M.rules (transition_of transition.now) (setup_of setup.now) (scene_in draft.old.kept) draft.old.moved (flags_in draft.old.kept) (values_in draft.old.kept) (state_in old_setup.now old.now) (held_inputs old.now.shelf.inputs) vertex }
{
    if is_found(draft, vertex) {
        return Ok(());
    }
    let next = step(
        alloc, kit, transition, old_setup, old, setup, vertex, draft, calls,
    )?;
    store(setup, draft, vertex, next);
    Ok(())
}

/// The flags of the document and the selection.
fn moved(transition: &Transition) -> SceneFlags
    ensures { result ≡ moved_by (transition_of transition.now) }
{
    match *transition {
        Transition::Enter => SceneFlags {
            document: false,
            selection: false,
        },
        Transition::Update(transaction) => {
            let document = !transaction.changes().is_empty();
            let count = transaction.selection().ranges().len();
            let start_count = transaction.start_selection().ranges().len();
            SceneFlags {
                document,
                selection: document || transaction.is_given() || count != start_count,
            }
        }
    }
}

/// What is kept of the state after a transition, where only what is due is found anew. It is in a box, so that passing it on
/// copies a pointer. `Err`: out of memory.
pub fn kept_after<M: Meanings, L: Ledger>(
    alloc: Global,
    kit: &Kit<M>,
    transition: &Transition,
    old_setup: &Setup,
    old: &Kept,
    setup: &Setup,
    scene: Scene,
    calls: &mut Steps<L>,
) -> Result<Box<Kept>, AllocError>
    requires whole { IsWhole M.rules kit.now }
    requires old_scene { IsScene (scene_in old.now) }
    requires is_scene { IsScene (scene_of scene) }
    requires made { IsMadeIn (scene_in old.now) (transition_of transition.now) }
    requires scene { scene_of scene ≡ scene_after (transition_of transition.now) (scene_in old.now) }
    requires placed { length (setup_of setup.now).config.inputs ≤ length (setup_of setup.now).defs.facets }
    requires ordered { IsOrdered (setup_of setup.now) }
    requires old_lawful { IsLawful M.rules (setup_of old_setup.now) }
    requires lawful { IsLawful M.rules (setup_of setup.now) }
    requires follows { Follows (transition_of transition.now) (setup_of old_setup.now) (setup_of setup.now) }
    requires kept { IsKeptIn M.rules old_setup.now old.now }
    ensures scene { IfOk result (λ kept. scene_in kept.value ≡ scene_of scene) }
    ensures values { IfOk result (λ kept. values_in kept.value ≡ values_of M.rules (setup_of setup.now) (scene_of scene) (rule_of M.rules (transition_of transition.now) (state_in old_setup.now old.now))) }
    ensures kept { IfOk result (λ kept. IsKeptIn M.rules setup.now kept.value) }
    ensures cost { calls.new ≤ calls.old + transition_calls M.rules (transition_of transition.now) (state_in old_setup.now old.now) (setup_of setup.now) }
{
    let mut draft = begun_draft(alloc, transition, old, setup, scene)?;
    for place in 0..order_len(setup) {
        let vertex = vertex_at(setup, place);
        advance(
            alloc, kit, transition, old_setup, old, setup, vertex, &mut draft, calls,
        )?;
    }
    Ok(Box::new(alloc, draft.kept)?)
}
