// A facet after a transition: only what is due is computed.
ghost use Rattle.std.specs.Prelude.{◌≡◌, ◌+◌, ◌≤◌, ◌||◌, map, not, slice_get, IfOk, IsSomeAnd, All, List, Some, None, []};
ghost use Rattle.std.specs.List.{AllByRecursion, list_any};
ghost use Rattle.transaction.specs.Numbers.{IsNumber};
ghost use Rattle.values.specs.Vals.{IsOf};
ghost use Rattle.values.specs.Whole.{IsWhole};
ghost use Rattle.facet_slots.specs.Setups.{input_node};
ghost use Rattle.facet_slots.specs.Scenes.{IsScene};
ghost use Rattle.facet_slots.specs.Lawful.{FitsCombiner, IsLawfulFacet};
ghost use Rattle.facet_slots.specs.Flags.{same_nodes, same_outputs as same_outputs_of};
ghost use Rattle.facet_slots.specs.Found.{facet_of};
ghost use Rattle.facet_slots.specs.Nexts.{next_outputs, next_changed, next_input_calls, next_count, IsNextFacet};
ghost use Rattle.facet_slots.specs.Lent.{flags_in, nodes_before, scene_in, values_in};

use crate::before::Before;
use crate::draft::Draft;
use crate::facet_inputs::FacetInputs;
use crate::flags::input_flagged;
use crate::input_values::InputValues;
use crate::outputs::{combine, node_outputs};
use crate::slot::Slot;
use configuration::{FacetDef, NodeDef};
use std::alloc::{AllocError, Global};
use std::sync::ledger::Ledger;
use steps::Steps;
use values::{Kit, Meanings, SharedVal, Val};

/// Whether the comparer says 'same' of each pair, and there are as many.
fn same_outputs<M: Meanings>(kit: &Kit<M>, comparer: u32, old: &[Val], new: &[Val]) -> bool
    requires whole { IsWhole M.rules kit.now }
    requires number { IsNumber M.rules.comparers comparer }
    ensures { result ≡ same_outputs_of M.rules comparer old.now new.now }
{
    let mut rest = new;
    for value in old {
        match rest {
            [other, others @ ..] => {
                if !kit.comparer(comparer).call(value, other) {
                    return false;
                }
                rest = others;
            }
            [] => return false,
        }
    }
    rest.is_empty()
}

/// What an input gives after a transition, and whether that is not known to be the same.
#[derive(Drop)]
struct NextInput {
    outputs: InputValues,
    changed: bool,
}

/// An input with a flagged dependency.
fn flagged_input<M: Meanings, L: Ledger>(
    alloc: Global,
    kit: &Kit<M>,
    old: &InputValues,
    node_defs: &[NodeDef<Val>],
    node: u32,
    facet: &FacetDef,
    draft: &Draft,
    calls: &mut Steps<L>,
) -> Result<NextInput, AllocError>
    requires whole { IsWhole M.rules kit.now }
    requires scene { IsScene (scene_in draft.now.kept) }
    requires lawful { FitsCombiner M.rules facet.now.combine (slice_get node_defs.now node) }
    requires number { IsNumber M.rules.comparers facet.now.compare_input }
    ensures outputs { IfOk result (λ n. n.outputs ≡ node_outputs_of M.rules (scene_in draft.now.kept) (values_in draft.now.kept) (input_node node_defs.now node)) }
    ensures changed { IfOk result (λ n. n.changed ≡ not (same_outputs_of M.rules facet.now.compare_input old.now (node_outputs_of M.rules (scene_in draft.now.kept) (values_in draft.now.kept) (input_node node_defs.now node)))) }
    ensures cost { calls.new ≤ calls.old + call_of (slice_get node_defs.now node) }
{
    let outputs = node_outputs(
        alloc,
        kit,
        &draft.kept.scene,
        node_defs,
        node,
        facet.combine,
        &draft.kept.shelf,
        calls,
    )?;
    let changed = !same_outputs(kit, facet.compare_input, old.as_slice(), outputs.as_slice());
    Ok(NextInput { outputs, changed })
}

ghost use Rattle.facet_slots.specs.Due.{call_of};
ghost use Rattle.facet_slots.specs.FacetValues.{node_outputs as node_outputs_of};

/// An input after a transition: it is found anew where it is new to its facet or a declared dependency is flagged.
fn next_input<M: Meanings, L: Ledger>(
    alloc: Global,
    kit: &Kit<M>,
    before: &Before,
    node_defs: &[NodeDef<Val>],
    node: u32,
    facet: &FacetDef,
    draft: &Draft,
    calls: &mut Steps<L>,
) -> Result<NextInput, AllocError>
    requires whole { IsWhole M.rules kit.now }
    requires scene { IsScene (scene_in draft.now.kept) }
    requires lawful { FitsCombiner M.rules facet.now.combine (slice_get node_defs.now node) }
    requires number { IsNumber M.rules.comparers facet.now.compare_input }
    ensures outputs { IfOk result (λ n. n.outputs ≡ next_outputs M.rules (scene_in draft.now.kept) draft.now.moved (flags_in draft.now.kept) (values_in draft.now.kept) (nodes_before before.now) before.now.kept.now (input_node node_defs.now node)) }
    ensures changed { IfOk result (λ n. n.changed ≡ next_changed M.rules (scene_in draft.now.kept) draft.now.moved (flags_in draft.now.kept) (values_in draft.now.kept) facet.now.compare_input (nodes_before before.now) before.now.kept.now (input_node node_defs.now node)) }
    ensures cost { calls.new ≤ calls.old + next_input_calls draft.now.moved (flags_in draft.now.kept) (nodes_before before.now) before.now.kept.now (input_node node_defs.now node) }
{
    match before.outputs(node) {
        None => Ok(NextInput {
            outputs: node_outputs(
                alloc,
                kit,
                &draft.kept.scene,
                node_defs,
                node,
                facet.combine,
                &draft.kept.shelf,
                calls,
            )?,
            changed: true,
        }),
        Some(old) => {
            if input_flagged(node_defs, node, draft) {
                flagged_input(alloc, kit, old, node_defs, node, facet, draft, calls)
            } else {
                Ok(NextInput {
                    outputs: old.share()?,
                    changed: false,
                })
            }
        }
    }
}

/// What each input of a facet gives, in flat order, and whether one changed.
#[derive(Drop)]
struct NextInputs {
    inputs: FacetInputs,
    changed: bool,
}

/// The same, as a list: of none or of several.
fn listed_next_inputs<M: Meanings, L: Ledger>(
    alloc: Global,
    kit: &Kit<M>,
    before: &Before,
    node_defs: &[NodeDef<Val>],
    nodes: &[u32],
    facet: &FacetDef,
    draft: &Draft,
    calls: &mut Steps<L>,
) -> Result<NextInputs, AllocError>
    requires whole { IsWhole M.rules kit.now }
    requires scene { IsScene (scene_in draft.now.kept) }
    requires lawful { IsLawfulFacet M.rules (facet_of facet.now node_defs.now nodes.now) }
    ensures inputs { IfOk result (λ n. n.inputs ≡ map (next_outputs M.rules (scene_in draft.now.kept) draft.now.moved (flags_in draft.now.kept) (values_in draft.now.kept) (nodes_before before.now) before.now.kept.now) (map (input_node node_defs.now) nodes.now)) }
    ensures changed { IfOk result (λ n. n.changed ≡ list_any (next_changed M.rules (scene_in draft.now.kept) draft.now.moved (flags_in draft.now.kept) (values_in draft.now.kept) facet.now.compare_input (nodes_before before.now) before.now.kept.now) (map (input_node node_defs.now) nodes.now)) }
    ensures cost { calls.new ≤ calls.old + next_count draft.now.moved (flags_in draft.now.kept) (nodes_before before.now) before.now.kept.now (map (input_node node_defs.now) nodes.now) }
{
    let mut inputs = Vec::with_capacity(alloc, nodes.len())?;
    let mut changed = false;
    for node in nodes {
        let next = next_input(alloc, kit, before, node_defs, *node, facet, draft, calls)?;
        changed = changed || next.changed;
        inputs.push(next.outputs)?;
    }
    Ok(NextInputs {
        inputs: FacetInputs::new(alloc, inputs)?,
        changed,
    })
}

/// What each input of a facet gives, in flat order, and whether one changed. One input takes no list.
#[tactic(auto, using(crate::proofs::Single::one_node))]
fn next_inputs<M: Meanings, L: Ledger>(
    alloc: Global,
    kit: &Kit<M>,
    before: &Before,
    node_defs: &[NodeDef<Val>],
    nodes: &[u32],
    facet: &FacetDef,
    draft: &Draft,
    calls: &mut Steps<L>,
) -> Result<NextInputs, AllocError>
    requires whole { IsWhole M.rules kit.now }
    requires scene { IsScene (scene_in draft.now.kept) }
    requires lawful { IsLawfulFacet M.rules (facet_of facet.now node_defs.now nodes.now) }
    ensures inputs { IfOk result (λ n. n.inputs ≡ map (next_outputs M.rules (scene_in draft.now.kept) draft.now.moved (flags_in draft.now.kept) (values_in draft.now.kept) (nodes_before before.now) before.now.kept.now) (map (input_node node_defs.now) nodes.now)) }
    ensures changed { IfOk result (λ n. n.changed ≡ list_any (next_changed M.rules (scene_in draft.now.kept) draft.now.moved (flags_in draft.now.kept) (values_in draft.now.kept) facet.now.compare_input (nodes_before before.now) before.now.kept.now) (map (input_node node_defs.now) nodes.now)) }
    ensures cost { calls.new ≤ calls.old + next_count draft.now.moved (flags_in draft.now.kept) (nodes_before before.now) before.now.kept.now (map (input_node node_defs.now) nodes.now) }
{
    match nodes {
        [node] => {
            let next = next_input(alloc, kit, before, node_defs, *node, facet, draft, calls)?;
            Ok(NextInputs {
                inputs: FacetInputs::one(next.outputs),
                changed: next.changed,
            })
        }
        _ => listed_next_inputs(alloc, kit, before, node_defs, nodes, facet, draft, calls),
    }
}

/// Whether a facet is combined anew: an input changed, or its list of nodes differs.
fn differs(changed: bool, before: &Before, nodes: &[u32]) -> bool
    ensures { (node_defs : List (DefOf Val)) → result ≡ (changed || not (same_nodes (nodes_before before.now) (map (input_node node_defs) nodes.now))) }
{
    changed || !before.has_nodes(nodes)
}

ghost use Rattle.configuration.specs.declared.node_def.NodeDef.{NodeDef as DefOf};

/// The value of a facet that is combined anew, and whether it is not known to be the same.
#[derive(Drop)]
struct Anew {
    value: SharedVal,
    flag: bool,
}

fn combined<M: Meanings, L: Ledger>(
    alloc: Global,
    kit: &Kit<M>,
    old: &SharedVal,
    facet: &FacetDef,
    inputs: &[InputValues],
    calls: &mut Steps<L>,
) -> Result<Anew, AllocError>
    requires whole { IsWhole M.rules kit.now }
    requires combiner { IsNumber M.rules.combiners facet.now.combine }
    requires comparer { IsNumber M.rules.comparers facet.now.compare }
    requires fits { All (IsOf (M.rules.combine_input facet.now.combine)) (joined_of inputs.now) }
    ensures value { IfOk result (λ found. found.value ≡ M.rules.combine facet.now.combine (joined_of inputs.now)) }
    ensures flag { IfOk result (λ found. found.flag ≡ not (M.rules.compare facet.now.compare old.now found.value)) }
    ensures cost { calls.new ≤ calls.old + 1 }
{
    let value = combine(alloc, kit, facet.combine, inputs, calls)?;
    let flag = !kit.comparer(facet.compare).call(old.value(), value.value());
    Ok(Anew { value, flag })
}

ghost use Rattle.facet_slots.specs.FacetValues.{joined as joined_of};

/// A facet that was declared before, from what was kept of its inputs and its old value. `Err`: out of memory.
pub fn next_facet<M: Meanings, L: Ledger>(
    alloc: Global,
    kit: &Kit<M>,
    before: &Before,
    old: &SharedVal,
    node_defs: &[NodeDef<Val>],
    nodes: &[u32],
    facet: &FacetDef,
    draft: &Draft,
    calls: &mut Steps<L>,
) -> Result<Slot, AllocError>
    requires whole { IsWhole M.rules kit.now }
    requires scene { IsScene (scene_in draft.now.kept) }
    requires lawful { IsLawfulFacet M.rules (facet_of facet.now node_defs.now nodes.now) }
    requires kept_fit { AllByRecursion (λ k. All (IsOf (M.rules.combine_input facet.now.combine)) k) before.now.kept.now }
    ensures next { IfOk result (λ n. IsSomeAnd n.value (λ value. IsNextFacet M.rules (scene_in draft.now.kept) draft.now.moved (flags_in draft.now.kept) (values_in draft.now.kept) (Some (facet_before before.now)) before.now.kept.now (Some old.now) (facet_of facet.now node_defs.now nodes.now) value n.flag n.inputs)) }
    ensures cost { calls.new ≤ calls.old + facet_next_calls M.rules (scene_in draft.now.kept) draft.now.moved (flags_in draft.now.kept) (values_in draft.now.kept) (Some (facet_before before.now)) before.now.kept.now (facet_of facet.now node_defs.now nodes.now) }
{
    draft.kept.shelf.known();
    let NextInputs { inputs, changed } = next_inputs(
        alloc, kit, before, node_defs, nodes, facet, draft, calls,
    )?;
    if differs(changed, before, nodes) {
        let Anew { value, flag } = combined(alloc, kit, old, facet, inputs.as_slice(), calls)?;
        Ok(Slot {
            inputs,
            value: Some(value),
            flag,
        })
    } else {
        let same = old.share()?;
        Ok(Slot {
            inputs,
            value: Some(same),
            flag: false,
        })
    }
}

ghost use Rattle.facet_slots.specs.Nexts.{facet_next_calls};
ghost use Rattle.facet_slots.specs.Lent.{facet_before};
