// The dependency pairs.
ghost use Rattle.std.specs.Prelude.{◌≡◌, ◌<◌, ◌+◌, ◌++◌, ◌^◌, flat_map, IfOk, OnOk, length, slice_get};
ghost use Rattle.configuration.specs.Pairs.{vertex_of, read_pair, reads_of, reads_in, input_pairs, facet_pairs_from, field_pairs, field_pairs_from, pairs};

use crate::counts::Counts;
use crate::defs::Defs;
use crate::dependency::Dependency;
use crate::field_def::FieldDef;
use crate::node_def::NodeDef;
use dep_graph::Edge;
use ext_tree::ExtId;
use listed::Listed;
use std::alloc::{AllocError, Global};

/// The number of the vertex that a dependency is, if it is a declared facet or field.
fn vertex_of(counts: Counts, read: Dependency) -> Option<u32>
    ensures { result ≡ vertex_of counts.facets counts.fields read }
{
    match read {
        Dependency::Facet(facet) if facet < counts.facets => Some(facet),
        Dependency::Field(field) if field < counts.fields => Some(counts.facets + field),
        _ => None,
    }
}

/// Adds the pair of a vertex and what it reads, if that is a vertex.
fn push_read(
    counts: Counts,
    vertex: u32,
    read: Dependency,
    edges: &mut Vec<Edge>,
) -> Result<(), AllocError>
    ensures { OnOk result (edges.new.items ≡ edges.old.items ++ read_pair counts.facets counts.fields vertex read) }
{
    if let Some(dependency) = vertex_of(counts, read) {
        edges.push(Edge { vertex, dependency })?;
    }
    Ok(())
}

/// Adds the pairs of a vertex and all that it reads.
fn push_reads(
    counts: Counts,
    vertex: u32,
    reads: &[Dependency],
    edges: &mut Vec<Edge>,
) -> Result<(), AllocError>
    ensures { OnOk result (edges.new.items ≡ edges.old.items ++ flat_map (read_pair counts.facets counts.fields vertex) reads.now) }
{
    for read in reads {
        push_read(counts, vertex, *read, edges)?;
    }
    Ok(())
}

/// Adds the pairs of a facet and what one of its inputs declares.
fn push_node<V>(
    counts: Counts,
    facet: u32,
    node_defs: &[NodeDef<V>],
    node: ExtId,
    edges: &mut Vec<Edge>,
) -> Result<(), AllocError>
    ensures { OnOk result (edges.new.items ≡ edges.old.items ++ flat_map (read_pair counts.facets counts.fields facet) (reads_of (slice_get node_defs.now node))) }
{
    match node_defs.get(node as usize) {
        Some(NodeDef::Compute { reads, .. }) => push_reads(counts, facet, reads.as_slice(), edges),
        Some(NodeDef::ComputeN { reads, .. }) => push_reads(counts, facet, reads.as_slice(), edges),
        Some(NodeDef::From { field, .. }) => {
            push_reads(counts, facet, &[Dependency::Field(*field)], edges)
        }
        // Other nodes declare nothing; the proof wants that pushed as the others are.
        _ => push_reads(counts, facet, &[], edges),
    }
}

/// Adds the pairs of a facet and what its inputs declare.
fn push_inputs<V>(
    counts: Counts,
    facet: u32,
    node_defs: &[NodeDef<V>],
    nodes: &[ExtId],
    edges: &mut Vec<Edge>,
) -> Result<(), AllocError>
    ensures { OnOk result (edges.new.items ≡ edges.old.items ++ flat_map (input_pairs counts.facets counts.fields node_defs.now facet) nodes.now) }
{
    for node in nodes {
        push_node(counts, facet, node_defs, *node, edges)?;
    }
    Ok(())
}

/// Adds the pairs of all facets and what their inputs declare.
fn push_facets<V>(
    counts: Counts,
    node_defs: &[NodeDef<V>],
    inputs: &[Listed<ExtId>],
    edges: &mut Vec<Edge>,
) -> Result<(), AllocError>
    requires { length inputs.now ≡ counts.facets }
    ensures { OnOk result (edges.new.items ≡ edges.old.items ++ facet_pairs_from counts.facets counts.fields node_defs.now 0 inputs.now) }
{
    for facet in 0..counts.facets {
        let nodes = inputs[facet as usize].as_slice();
        push_inputs(counts, facet, node_defs, nodes, edges)?;
    }
    Ok(())
}

/// What a field reads.
fn reads_at(defs: &[FieldDef], field: u32) -> &[Dependency]
    ensures { result.now ≡ reads_in (slice_get defs.now field) }
{
    match defs.get(field as usize) {
        Some(field) => field.reads.as_slice(),
        None => &[],
    }
}

/// Adds the pairs of a field and what it reads, if it is present.
fn push_field(
    counts: Counts,
    defs: &[FieldDef],
    field: u32,
    node: Option<ExtId>,
    edges: &mut Vec<Edge>,
) -> Result<(), AllocError>
    requires { field < counts.fields }
    ensures { OnOk result (edges.new.items ≡ edges.old.items ++ field_pairs counts.facets counts.fields defs.now field node) }
{
    match node {
        Some(_) => push_reads(counts, counts.facets + field, reads_at(defs, field), edges),
        None => Ok(()),
    }
}

/// Adds the pairs of all present fields and what they read.
fn push_fields(
    counts: Counts,
    defs: &[FieldDef],
    nodes: &[Option<ExtId>],
    edges: &mut Vec<Edge>,
) -> Result<(), AllocError>
    requires { length nodes.now ≡ counts.fields }
    ensures { OnOk result (edges.new.items ≡ edges.old.items ++ field_pairs_from counts.facets counts.fields defs.now 0 nodes.now) }
{
    for field in 0..counts.fields {
        push_field(counts, defs, field, nodes[field as usize], edges)?;
    }
    Ok(())
}

/// The dependency pairs of the inputs and fields that are present.
pub fn dependency_pairs<V>(
    alloc: Global,
    defs: &Defs<V>,
    inputs: &[Listed<ExtId>],
    nodes: &[Option<ExtId>],
) -> Result<Vec<Edge>, AllocError>
    requires inputs { length inputs.now ≡ length defs.now.facets }
    requires nodes { length nodes.now ≡ length defs.now.fields }
    ensures { IfOk result (λ edges. edges.items ≡ pairs defs.now.facets defs.now.fields defs.now.node_defs inputs.now nodes.now) }
{
    let counts = Counts {
        facets: defs.facet_count(),
        fields: defs.field_count(),
    };
    let mut edges = Vec::new(alloc);
    push_facets(counts, defs.node_defs.as_slice(), inputs, &mut edges)?;
    push_fields(counts, defs.fields.as_slice(), nodes, &mut edges)?;
    Ok(edges)
}
