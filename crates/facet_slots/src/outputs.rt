// What inputs give, and the value of a facet.
ghost use Rattle.std.specs.Prelude.{◌≡◌, ◌+◌, ◌≤◌, ◌++◌, ◌∷◌, [], IfOk, OnOk, map, slice_get, All};
ghost use Rattle.values.specs.Vals.{IsOf};
ghost use Rattle.values.specs.Whole.{IsWhole};
ghost use Rattle.facet_slots.specs.Setups.{input_node};
ghost use Rattle.facet_slots.specs.Scenes.{IsScene, shown as shown_of};
ghost use Rattle.facet_slots.specs.FacetValues.{facet_value, joined as joined_of, node_outputs as node_outputs_of};
ghost use Rattle.facet_slots.specs.Keeping.{held};
ghost use Rattle.facet_slots.specs.Lawful.{FitsCombiner, IsLawfulFacet};
ghost use Rattle.facet_slots.specs.Due.{call_of, calls_of};
ghost use Rattle.transaction.specs.Numbers.{IsNumber};
ghost use Rattle.facet_slots.specs.Found.{facet_of, scene_of};

use crate::deps::shown;
use crate::facet_inputs::FacetInputs;
use crate::input_values::InputValues;
use crate::shelf::Shelf;
use configuration::{Dependency, FacetDef, NodeDef};
use listed::Listed;
use std::alloc::{AllocError, Global};
use std::sync::ledger::Ledger;
use steps::Steps;
use values::{Kit, Meanings, Scene, SharedVal, Val};

/// The input that a rule computes from what it declares.
fn computed<M: Meanings, L: Ledger>(
    alloc: Global,
    kit: &Kit<M>,
    scene: &Scene,
    rule: u32,
    reads: &[Dependency],
    shelf: &Shelf,
    calls: &mut Steps<L>,
) -> Result<InputValues, AllocError>
    requires whole { IsWhole M.rules kit.now }
    requires scene { IsScene (scene_of scene.now) }
    requires number { IsNumber M.rules.computers rule }
    ensures value { IfOk result (λ values. values ≡ M.rules.compute rule (shown_of (scene_of scene.now) (held shelf.now.facets shelf.now.fields) reads.now) ∷ []) }
    ensures cost { calls.new ≤ calls.old + 1 }
{
    let deps = shown(alloc, scene, reads, shelf)?;
    InputValues::one(alloc, kit.computer(rule).call(&deps, calls)?)
}

/// The inputs that a rule computes from what it declares.
fn computed_list<M: Meanings, L: Ledger>(
    alloc: Global,
    kit: &Kit<M>,
    scene: &Scene,
    rule: u32,
    reads: &[Dependency],
    shelf: &Shelf,
    calls: &mut Steps<L>,
) -> Result<InputValues, AllocError>
    requires whole { IsWhole M.rules kit.now }
    requires scene { IsScene (scene_of scene.now) }
    requires number { IsNumber M.rules.list_computers rule }
    ensures value { IfOk result (λ values. values ≡ M.rules.compute_list rule (shown_of (scene_of scene.now) (held shelf.now.facets shelf.now.fields) reads.now)) }
    ensures cost { calls.new ≤ calls.old + 1 }
{
    let deps = shown(alloc, scene, reads, shelf)?;
    InputValues::new(alloc, kit.computer_n(rule).call(&deps, calls)?)
}

/// The inputs that a node gives its facet. `Err`: out of memory.
pub fn node_outputs<M: Meanings, L: Ledger>(
    alloc: Global,
    kit: &Kit<M>,
    scene: &Scene,
    node_defs: &[NodeDef<Val>],
    node: u32,
    combiner: u32,
    shelf: &Shelf,
    calls: &mut Steps<L>,
) -> Result<InputValues, AllocError>
    requires whole { IsWhole M.rules kit.now }
    requires scene { IsScene (scene_of scene.now) }
    requires lawful { FitsCombiner M.rules combiner (slice_get node_defs.now node) }
    ensures value { IfOk result (λ values. values ≡ node_outputs_of M.rules (scene_of scene.now) (held shelf.now.facets shelf.now.fields) (input_node node_defs.now node)) }
    ensures cost { calls.new ≤ calls.old + call_of (slice_get node_defs.now node) }
{
    match node_defs.get(node as usize) {
        Some(NodeDef::Of(value)) => InputValues::one(alloc, value.try_copy(alloc)?),
        Some(NodeDef::Compute { rule, reads }) => {
            computed(alloc, kit, scene, *rule, reads.as_slice(), shelf, calls)
        }
        Some(NodeDef::ComputeN { rule, reads }) => {
            computed_list(alloc, kit, scene, *rule, reads.as_slice(), shelf, calls)
        }
        Some(NodeDef::From { field, rule }) => {
            let reads = [Dependency::Field(*field)];
            computed(alloc, kit, scene, *rule, &reads, shelf, calls)
        }
        _ => InputValues::new(alloc, Listed::empty(alloc)),
    }
}

/// What each input of a facet gives, in flat order.
fn all_outputs<M: Meanings, L: Ledger>(
    alloc: Global,
    kit: &Kit<M>,
    scene: &Scene,
    facet: &FacetDef,
    node_defs: &[NodeDef<Val>],
    nodes: &[u32],
    shelf: &Shelf,
    calls: &mut Steps<L>,
) -> Result<FacetInputs, AllocError>
    requires whole { IsWhole M.rules kit.now }
    requires scene { IsScene (scene_of scene.now) }
    requires lawful { IsLawfulFacet M.rules (facet_of facet.now node_defs.now nodes.now) }
    ensures value { IfOk result (λ found. found ≡ map (node_outputs_of M.rules (scene_of scene.now) (held shelf.now.facets shelf.now.fields)) (map (input_node node_defs.now) nodes.now)) }
    ensures cost { calls.new ≤ calls.old + calls_of (map (input_node node_defs.now) nodes.now) }
{
    let mut found = Vec::with_capacity(alloc, nodes.len())?;
    for node in nodes {
        found.push(node_outputs(
            alloc,
            kit,
            scene,
            node_defs,
            *node,
            facet.combine,
            shelf,
            calls,
        )?)?;
    }
    FacetInputs::new(alloc, found)
}

/// Adds copies of more values.
fn append(alloc: Global, values: &mut Vec<Val>, more: &[Val]) -> Result<(), AllocError>
    ensures { OnOk result (values.new.items ≡ values.old.items ++ more.now) }
{
    for value in more {
        values.push(value.try_copy(alloc)?)?;
    }
    Ok(())
}

/// Lists joined in order.
fn joined(alloc: Global, lists: &[InputValues]) -> Result<Vec<Val>, AllocError>
    ensures { IfOk result (λ values. values.items ≡ joined_of lists.now) }
{
    let mut values = Vec::with_capacity(alloc, lists.len())?;
    for list in lists {
        append(alloc, &mut values, list.as_slice())?;
    }
    Ok(values)
}

/// What a combiner gives for these inputs, joined in order. `Err`: out of memory.
pub fn combine<M: Meanings, L: Ledger>(
    alloc: Global,
    kit: &Kit<M>,
    combiner: u32,
    inputs: &[InputValues],
    calls: &mut Steps<L>,
) -> Result<SharedVal, AllocError>
    requires whole { IsWhole M.rules kit.now }
    requires number { IsNumber M.rules.combiners combiner }
    requires fits { All (IsOf (M.rules.combine_input combiner)) (joined_of inputs.now) }
    ensures value { IfOk result (λ v. v ≡ M.rules.combine combiner (joined_of inputs.now)) }
    ensures cost { calls.new ≤ calls.old + 1 }
{
    let rule = kit.combiner(combiner);
    let value = match inputs {
        [values] => rule.call(values.as_slice(), calls)?,
        _ => rule.call(&joined(alloc, inputs)?, calls)?,
    };
    SharedVal::new(alloc, value)
}

/// The value of a facet, and what each of its inputs gave, in flat order.
#[derive(Drop)]
pub struct FacetFound {
    pub inputs: FacetInputs,
    pub value: SharedVal,
}

/// A facet found anew from these input nodes. `Err`: out of memory.
pub fn facet_found<M: Meanings, L: Ledger>(
    alloc: Global,
    kit: &Kit<M>,
    scene: &Scene,
    facet: &FacetDef,
    node_defs: &[NodeDef<Val>],
    nodes: &[u32],
    shelf: &Shelf,
    calls: &mut Steps<L>,
) -> Result<FacetFound, AllocError>
    requires whole { IsWhole M.rules kit.now }
    requires scene { IsScene (scene_of scene.now) }
    requires lawful { IsLawfulFacet M.rules (facet_of facet.now node_defs.now nodes.now) }
    ensures value { IfOk result (λ found. found.value ≡ facet_value M.rules (scene_of scene.now) (held shelf.now.facets shelf.now.fields) (facet_of facet.now node_defs.now nodes.now)) }
    ensures inputs { IfOk result (λ found. found.inputs ≡ map (node_outputs_of M.rules (scene_of scene.now) (held shelf.now.facets shelf.now.fields)) (map (input_node node_defs.now) nodes.now)) }
    ensures cost { calls.new ≤ calls.old + (calls_of (map (input_node node_defs.now) nodes.now) + 1) }
{
    shelf.known();
    let inputs = all_outputs(alloc, kit, scene, facet, node_defs, nodes, shelf, calls)?;
    let value = combine(alloc, kit, facet.combine, inputs.as_slice(), calls)?;
    Ok(FacetFound { inputs, value })
}
