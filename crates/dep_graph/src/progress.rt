// An order of the vertices as far as there is one.
ghost use Rattle.std.specs.Prelude.{◌≡◌, ◌<◌, ◌+◌, [], All, IfOk, OnOk, length, get_or, take, MatchOption};
ghost use Rattle.dep_graph.specs.Counting.{IsGraph, IsProgress, IsTold, AreCounts, ready_below, NoneWaits, IsFirstWaiting};
ghost use Rattle.dep_graph.specs.Order.{IsEdge};

use crate::edge::Edge;
use crate::graph::{Graph, dependents_of};
use std::alloc::{AllocError, Global};

/// The vertices in order as far as there is one, and how many dependencies are left of each.
#[derive(Drop)]
pub struct Progress {
    pub counts: Vec<usize>,
    pub order: Vec<u32>,
}

/// How many dependencies each vertex has.
fn counted(alloc: Global, count: u32, edges: &[Edge]) -> Result<Vec<usize>, AllocError>
    requires { All (IsEdge count) edges.now }
    ensures { IfOk result (λ counts. AreCounts count [] edges.now counts.items) }
{
    let mut counts = vec![in alloc; 0; count as usize]?;
    for edge in edges {
        counts[edge.vertex as usize] += 1;
    }
    Ok(counts)
}

/// One dependency less is left of a vertex; where none is left, it is next in the order.
fn tell(vertex: u32, counts: &mut Vec<usize>, order: &mut Vec<u32>) -> Result<(), AllocError>
    requires within { vertex < length counts.old.items }
    requires waits { 0 < get_or counts.old.items vertex 0 }
    ensures { OnOk result (IsTold vertex counts.old.items order.old.items counts.new.items order.new.items) }
{
    let place = vertex as usize;
    let left = counts[place];
    counts[place] = left - 1;
    if left == 1 {
        order.push(vertex)?;
    }
    Ok(())
}

/// Tells the dependents of the vertex at a place of the order.
fn settle(
    graph: &Graph,
    head: usize,
    counts: &mut Vec<usize>,
    order: &mut Vec<u32>,
) -> Result<(), AllocError>
    requires graph { IsGraph graph.now }
    requires head { head < length order.old.items }
    requires progress { IsProgress graph.now.count graph.now.edges.items (take head order.old.items) [] counts.old.items order.old.items }
    ensures head { OnOk result (head < length order.new.items) }
    ensures progress { OnOk result (IsProgress graph.now.count graph.now.edges.items (take (head + 1) order.new.items) [] counts.new.items order.new.items) }
{
    let vertex = order[head];
    let dependents = dependents_of(graph, vertex);
    for dependent in dependents {
        tell(*dependent, counts, order)?;
    }
    Ok(())
}

/// The vertices without dependencies.
fn first_ready(alloc: Global, count: u32, counts: &[usize]) -> Result<Vec<u32>, AllocError>
    requires { length counts.now ≡ count }
    ensures { IfOk result (λ order. order.items ≡ ready_below counts.now count) }
{
    let mut order = Vec::new(alloc);
    for vertex in 0..count {
        if counts[vertex as usize] == 0 {
            order.push(vertex)?;
        }
    }
    Ok(order)
}

/// The first vertex of which dependencies are left.
pub fn first_waiting(count: u32, counts: &[usize]) -> Option<u32>
    requires { length counts.now ≡ count }
    ensures { MatchOption result (NoneWaits counts.now) (λ v. IsFirstWaiting counts.now v) }
{
    for vertex in 0..count {
        if counts[vertex as usize] != 0 {
            return Some(vertex);
        }
    }
    None
}

/// Puts the vertices in order as far as there is one. The order itself is the queue of those whose dependents are to
/// be told.
pub fn run(alloc: Global, graph: &Graph) -> Result<Progress, AllocError>
    requires { IsGraph graph.now }
    ensures { IfOk result (λ p. IsProgress graph.now.count graph.now.edges.items p.order.items [] p.counts.items p.order.items) }
{
    let mut counts = counted(alloc, graph.count, &graph.edges)?;
    let mut order = first_ready(alloc, graph.count, &counts)?;
    let mut head = 0;
    while head < order.len() {
        settle(graph, head, &mut counts, &mut order)?;
        head += 1;
    }
    Ok(Progress { counts, order })
}
