// A circle among the vertices that can't be ordered.
ghost use Rattle.std.specs.Prelude.{◌≡◌, ◌<◌, ℕ, [], All, IfOk, None, length, get_or, replicate, set, false};
ghost use Rattle.dep_graph.specs.Counting.{IsGraph, IsProgress, IsFirstWaiting};
ghost use Rattle.id_lists.specs.Least.{lesser};
ghost use Rattle.id_lists.specs.Members.{In};
ghost use Rattle.dep_graph.specs.Visiting.{AreNexts, IsPartFrom};
ghost use Rattle.dep_graph.specs.Order.{IsEdge, IsNext, IsCircle};

use crate::edge::Edge;
use crate::graph::Graph;
use crate::progress::Progress;
use id_lists::lesser;
use std::alloc::{AllocError, Global};

/// Notes a dependency that waits, if it is the least so far.
fn note(nexts: &mut Vec<Option<u32>>, vertex: u32, dependency: u32)
    requires { vertex < length nexts.old.items }
    ensures { nexts.new.items ≡ set nexts.old.items vertex (lesser (get_or nexts.old.items vertex None) dependency) }
{
    nexts[vertex as usize] = lesser(nexts[vertex as usize], dependency);
}

/// The least dependency of each vertex that waits.
fn nexts_of(
    alloc: Global,
    count: u32,
    edges: &[Edge],
    counts: &[usize],
) -> Result<Vec<Option<u32>>, AllocError>
    requires edges { All (IsEdge count) edges.now }
    requires counts { length counts.now ≡ count }
    ensures { IfOk result (λ nexts. AreNexts count counts.now edges.now nexts.items) }
{
    let mut nexts = vec![in alloc; None; count as usize]?;
    for edge in edges {
        if counts[edge.dependency as usize] != 0 {
            note(&mut nexts, edge.vertex, edge.dependency);
        }
    }
    Ok(nexts)
}

/// What was noted for a vertex.
fn noted(nexts: &[Option<u32>], vertex: u32) -> Option<u32>
    requires { vertex < length nexts.now }
    ensures { result ≡ get_or nexts.now vertex None }
{
    nexts[vertex as usize]
}

/// The least dependency of a vertex that waits, where the vertex waits.
fn next_waiting(nexts: &[Option<u32>], graph: &Graph, progress: &Progress, vertex: u32) -> u32
    requires graph { IsGraph graph.now }
    requires progress { IsProgress graph.now.count graph.now.edges.items progress.now.order.items [] progress.now.counts.items progress.now.order.items }
    requires nexts { AreNexts graph.now.count progress.now.counts.items graph.now.edges.items nexts.now }
    requires within { vertex < graph.now.count }
    requires waits { get_or progress.now.counts.items vertex 0 ≡ 0 → ⊥ }
    ensures within { result < graph.now.count }
    ensures waits { get_or progress.now.counts.items result 0 ≡ 0 → ⊥ }
    ensures next { IsNext graph.now.edges.items vertex result }
{
    match noted(nexts, vertex) {
        Some(next) => next,
        None => unreachable!(),
    }
}

/// A mark for each vertex, none of them set.
fn no_marks(alloc: Global, count: u32) -> Result<Vec<bool>, AllocError>
    ensures { IfOk result (λ marks. marks.items ≡ replicate count false) }
{
    vec![in alloc; false; count as usize]
}

/// The part of a path from a vertex on.
fn part_from(alloc: Global, path: &[u32], vertex: u32) -> Result<Vec<u32>, AllocError>
    requires { In vertex path.now }
    ensures { IfOk result (λ members. IsPartFrom path.now vertex members.items) }
{
    for (place, other) in path.iter().enumerate() {
        if *other == vertex {
            let mut members = Vec::new(alloc);
            members.extend_from_slice(&path[place..])?;
            return Ok(members);
        }
    }
    unreachable!()
}

/// The circle that the first vertex that waits leads to.
pub fn circle(
    alloc: Global,
    graph: &Graph,
    progress: &Progress,
    first: u32,
) -> Result<Vec<u32>, AllocError>
    requires graph { IsGraph graph.now }
    requires progress { IsProgress graph.now.count graph.now.edges.items progress.now.order.items [] progress.now.counts.items progress.now.order.items }
    requires first { IsFirstWaiting progress.now.counts.items first }
    ensures { IfOk result (λ members. IsCircle graph.now.count graph.now.edges.items members.items) }
{
    let nexts = nexts_of(alloc, graph.count, &graph.edges, &progress.counts)?;
    let mut visited = no_marks(alloc, graph.count)?;
    let mut path = Vec::new(alloc);
    let mut vertex = first;
    while !visited[vertex as usize] {
        visited[vertex as usize] = true;
        path.push(vertex)?;
        vertex = next_waiting(&nexts, graph, progress, vertex);
    }
    let members = part_from(alloc, &path, vertex)?;
    Ok(members)
}
