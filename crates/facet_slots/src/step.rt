// One facet or field after a transition.
ghost use Rattle.std.specs.Prelude.{◌≡◌, ◌+◌, ◌≤◌, IfOk, IfSome, IsSomeAnd, IsTrue, Some, None, get_or, map, true, false, []};
ghost use Rattle.std.specs.Option.{unwrap_or, option_map};
ghost use Rattle.std.specs.List.{list_any};
ghost use Rattle.values.specs.Whole.{IsWhole};
ghost use Rattle.facet_slots.specs.Setups.{facet_at, field_at, input_node};
ghost use Rattle.facet_slots.specs.Scenes.{IsScene};
ghost use Rattle.facet_slots.specs.Agreement.{Follows};
ghost use Rattle.facet_slots.specs.Lawful.{IsLawful, IsLawfulFacet};
ghost use Rattle.facet_slots.specs.Keeping.{held_inputs};
ghost use Rattle.facet_slots.specs.Flags.{same_nodes};
ghost use Rattle.facet_slots.specs.Due.{field_calls};
ghost use Rattle.facet_slots.specs.Nexts.{facet_next_calls, input_flagged, next_calls, IsNext, IsNextFacet, IsNextField};
ghost use Rattle.facet_slots.specs.Lent.{facet_before, facet_in, flags_in, nodes_before, scene_in, setup_of, state_in, transition_of, values_in, IsKeptIn};

use crate::before::Before;
use crate::draft::Draft;
use crate::facet_inputs::FacetInputs;
use crate::field::{FieldFound, field_found};
use crate::flags::any_input_flagged;
use crate::kept::Kept;
use crate::next::next_facet;
use crate::outputs::facet_found;
use crate::setup::Setup;
use crate::slot::Slot;
use crate::transition::Transition;
use configuration::{FacetDef, NodeDef, Vertex};
use std::alloc::{AllocError, Global};
use std::sync::ledger::Ledger;
use steps::Steps;
use values::{Kit, Meanings, SharedVal, Val};

/// A facet as it was, with what is kept of its inputs.
fn facet_was<'a>(old_setup: &Setup<'a>, old: &'a Kept, was: &'a FacetDef, place: u32) -> Before<'a>
    ensures was { facet_before result ≡ facet_in old_setup.now was.entry.now place }
    ensures kept { result.kept.now ≡ held_inputs old.entry.now.shelf.inputs (Vertex.Facet place) }
{
    Before {
        def: was,
        node_defs: old_setup.defs.node_defs.as_slice(),
        nodes: old_setup.inputs(place),
        kept: old.shelf.inputs(place),
    }
}

/// A facet that was declared since.
fn new_facet<M: Meanings, L: Ledger>(
    alloc: Global,
    kit: &Kit<M>,
    old: &Kept,
    setup: &Setup,
    place: u32,
    facet: &FacetDef,
    draft: &Draft,
    calls: &mut Steps<L>,
) -> Result<Slot, AllocError>
    requires whole { IsWhole M.rules kit.now }
    requires scene { IsScene (scene_in draft.now.kept) }
    requires absent { values_in old.now (Vertex.Facet place) ≡ None }
    requires lawful { IsLawfulFacet M.rules (facet_in setup.now facet.now place) }
    ensures next { IfOk result (λ n. IsSomeAnd n.value (λ value. IsNextFacet M.rules (scene_in draft.now.kept) draft.now.moved (flags_in draft.now.kept) (values_in draft.now.kept) None (held_inputs old.now.shelf.inputs (Vertex.Facet place)) (values_in old.now (Vertex.Facet place)) (facet_in setup.now facet.now place) value n.flag n.inputs)) }
    ensures cost { calls.new ≤ calls.old + facet_next_calls M.rules (scene_in draft.now.kept) draft.now.moved (flags_in draft.now.kept) (values_in draft.now.kept) None (held_inputs old.now.shelf.inputs (Vertex.Facet place)) (facet_in setup.now facet.now place) }
{
    let made = facet_found(
        alloc,
        kit,
        &draft.kept.scene,
        facet,
        setup.defs.node_defs.as_slice(),
        setup.inputs(place),
        &draft.kept.shelf,
        calls,
    )?;
    Ok(Slot {
        inputs: made.inputs,
        value: Some(made.value),
        flag: true,
    })
}

/// Whether a facet has the same nodes in another list, and no dependency of an input is flagged. Takes no memory.
fn is_still(before: &Before, node_defs: &[NodeDef<Val>], nodes: &[u32], draft: &Draft) -> bool
    ensures nodes { IsTrue result → same_nodes (nodes_before before.now) (map (input_node node_defs.now) nodes.now) ≡ true }
    ensures flags { IsTrue result → list_any (input_flagged draft.now.moved (flags_in draft.now.kept)) (map (input_node node_defs.now) nodes.now) ≡ false }
{
    before.has_nodes(nodes) && !any_input_flagged(node_defs, nodes, draft)
}

/// A facet that stays as it was.
fn still_facet(old: &Kept, place: u32, value: &SharedVal) -> Result<Slot, AllocError>
    ensures value { IfOk result (λ n. n.value ≡ Some value.now) }
    ensures flag { IfOk result (λ n. n.flag ≡ false) }
    ensures inputs { IfOk result (λ n. n.inputs ≡ held_inputs old.now.shelf.inputs (Vertex.Facet place)) }
{
    let inputs = old.shelf.share_inputs(place)?;
    let value = value.share()?;
    Ok(Slot {
        inputs,
        value: Some(value),
        flag: false,
    })
}

/// A facet that was declared before.
fn known_facet<M: Meanings, L: Ledger>(
    alloc: Global,
    kit: &Kit<M>,
    old_setup: &Setup,
    old: &Kept,
    setup: &Setup,
    place: u32,
    was: &FacetDef,
    facet: &FacetDef,
    draft: &Draft,
    calls: &mut Steps<L>,
) -> Result<Slot, AllocError>
    requires whole { IsWhole M.rules kit.now }
    requires old_scene { IsScene (scene_in old.now) }
    requires scene { IsScene (scene_in draft.now.kept) }
    requires kept { IsKeptIn M.rules old_setup.now old.now }
    requires old_lawful { IsLawful M.rules (setup_of old_setup.now) }
    requires was { facet_at (setup_of old_setup.now) place ≡ Some (facet_in old_setup.now was.now place) }
    requires same_combine { was.now.combine ≡ facet.now.combine }
    requires lawful { IsLawfulFacet M.rules (facet_in setup.now facet.now place) }
    ensures next { IfOk result (λ n. IsSomeAnd n.value (λ value. IsNextFacet M.rules (scene_in draft.now.kept) draft.now.moved (flags_in draft.now.kept) (values_in draft.now.kept) (Some (facet_in old_setup.now was.now place)) (held_inputs old.now.shelf.inputs (Vertex.Facet place)) (values_in old.now (Vertex.Facet place)) (facet_in setup.now facet.now place) value n.flag n.inputs)) }
    ensures cost { calls.new ≤ calls.old + facet_next_calls M.rules (scene_in draft.now.kept) draft.now.moved (flags_in draft.now.kept) (values_in draft.now.kept) (Some (facet_in old_setup.now was.now place)) (held_inputs old.now.shelf.inputs (Vertex.Facet place)) (facet_in setup.now facet.now place) }
{
    old.shelf.known();
    match old.shelf.facet(place) {
        Some(value) => {
            let before = facet_was(old_setup, old, was, place);
            let node_defs = setup.defs.node_defs.as_slice();
            let nodes = setup.inputs(place);
            if is_still(&before, node_defs, nodes, draft) {
                still_facet(old, place, value)
            } else {
                next_facet(
                    alloc, kit, &before, value, node_defs, nodes, facet, draft, calls,
                )
            }
        }
        None => unreachable!(),
    }
}

fn nothing(flag: bool) -> Slot
    ensures value { result.value ≡ None }
    ensures flag { result.flag ≡ flag }
    ensures inputs { result.inputs ≡ [] }
{
    Slot {
        inputs: FacetInputs::none(),
        value: None,
        flag,
    }
}

/// A facet after a transition, by the definitions that it had and has. `Err`: out of memory.
pub fn step_facet<M: Meanings, L: Ledger>(
    alloc: Global,
    kit: &Kit<M>,
    transition: &Transition,
    old_setup: &Setup,
    old: &Kept,
    setup: &Setup,
    place: u32,
    draft: &Draft,
    calls: &mut Steps<L>,
) -> Result<Slot, AllocError>
    requires whole { IsWhole M.rules kit.now }
    requires old_scene { IsScene (scene_in old.now) }
    requires scene { IsScene (scene_in draft.now.kept) }
    requires kept { IsKeptIn M.rules old_setup.now old.now }
    requires old_lawful { IsLawful M.rules (setup_of old_setup.now) }
    requires lawful { IsLawful M.rules (setup_of setup.now) }
    requires follows { Follows (transition_of transition.now) (setup_of old_setup.now) (setup_of setup.now) }
    ensures next { IfOk result (λ n. IsNext M.rules (transition_of transition.now) (setup_of setup.now) (scene_in draft.now.kept) draft.now.moved (flags_in draft.now.kept) (values_in draft.now.kept) (state_in old_setup.now old.now) (held_inputs old.now.shelf.inputs) (Vertex.Facet place) n.value n.flag n.inputs) }
    ensures cost { calls.new ≤ calls.old + next_calls M.rules (transition_of transition.now) (setup_of setup.now) (scene_in draft.now.kept) draft.now.moved (flags_in draft.now.kept) (values_in draft.now.kept) (state_in old_setup.now old.now) (held_inputs old.now.shelf.inputs) (Vertex.Facet place) }
{
    match setup.facet(place) {
        Some(facet) => match old_setup.facet(place) {
            Some(was) => known_facet(
                alloc, kit, old_setup, old, setup, place, was, facet, draft, calls,
            ),
            None => new_facet(alloc, kit, old, setup, place, facet, draft, calls),
        },
        None => Ok(nothing(false)),
    }
}

/// A field after a transition. `Err`: out of memory.
pub fn step_field<M: Meanings, L: Ledger>(
    alloc: Global,
    kit: &Kit<M>,
    transition: &Transition,
    old_setup: &Setup,
    old: &Kept,
    setup: &Setup,
    place: u32,
    draft: &Draft,
    calls: &mut Steps<L>,
) -> Result<Slot, AllocError>
    requires whole { IsWhole M.rules kit.now }
    requires scene { IsScene (scene_in draft.now.kept) }
    requires kept { IsKeptIn M.rules old_setup.now old.now }
    requires lawful { IsLawful M.rules (setup_of setup.now) }
    requires follows { Follows (transition_of transition.now) (setup_of old_setup.now) (setup_of setup.now) }
    ensures next { IfOk result (λ n. IsNextField M.rules (transition_of transition.now) (scene_in draft.now.kept) (values_in draft.now.kept) (state_in old_setup.now old.now) place (field_at (setup_of setup.now) place) n.value n.flag) }
    ensures cost { calls.new ≤ calls.old + unwrap_or (option_map (field_calls (transition_of transition.now) (state_in old_setup.now old.now) place) (field_at (setup_of setup.now) place)) 0 }
{
    match setup.field(place) {
        Some(field) => {
            let FieldFound { value, flag } = field_found(
                alloc,
                kit,
                transition,
                old_setup,
                old,
                &draft.kept.scene,
                place,
                &field,
                &draft.kept.shelf,
                calls,
            )?;
            Ok(Slot {
                inputs: FacetInputs::none(),
                value: Some(value),
                flag,
            })
        }
        None => Ok(nothing(old_setup.field(place).is_some())),
    }
}
