// Worked graphs.
ghost use Rattle.std.specs.Prelude.{◌≡◌, All, true};
ghost use Rattle.dep_graph.specs.Order.{IsEdge};

use dep_graph::{Edge, OrderError, order};
use std::alloc::{AllocError, Global};

fn edges_of(alloc: Global, pairs: &[(u32, u32)]) -> Result<Vec<Edge>, AllocError> {
    let mut edges = Vec::new(alloc);
    for (vertex, dependency) in pairs {
        edges.push(Edge {
            vertex: *vertex,
            dependency: *dependency,
        })?;
    }
    Ok(edges)
}

fn are_edges(count: u32, edges: &[Edge]) -> bool
    ensures { result ≡ true → All (IsEdge count) edges.now }
{
    for edge in edges {
        if edge.vertex >= count || edge.dependency >= count {
            return false;
        }
    }
    true
}

/// The order of so many vertices along some pairs of a vertex and a dependency.
fn ordered(alloc: Global, count: u32, pairs: &[(u32, u32)]) -> Result<Vec<u32>, OrderError> {
    let edges = edges_of(alloc, pairs)?;
    if !are_edges(count, &edges) {
        return Err(OrderError::NoMemory);
    }
    order(alloc, count, edges)
}

fn is_order(found: Result<Vec<u32>, OrderError>, want: &[u32]) -> bool {
    match found {
        Ok(order) => &*order == want,
        Err(_) => false,
    }
}

fn is_circle(found: Result<Vec<u32>, OrderError>, want: &[u32]) -> bool {
    match found {
        Err(OrderError::Cycle { members }) => &*members == want,
        _ => false,
    }
}

#[test]
fn dependencies_come_first(rt: HostRuntime) {
    assert!(rt; is_order(ordered(rt.alloc(), 0, &[]), &[]));
    assert!(rt; is_order(ordered(rt.alloc(), 3, &[]), &[0, 1, 2]));
    assert!(rt; is_order(ordered(rt.alloc(), 3, &[(0, 1), (1, 2)]), &[2, 1, 0]));
    assert!(rt;
        is_order(
            ordered(rt.alloc(), 3, &[(0, 2), (0, 2), (1, 2)]),
            &[2, 0, 1]
        )
    );
}

#[test]
fn circles_of_all(rt: HostRuntime) {
    // two that depend on each other
    assert!(rt; is_circle(ordered(rt.alloc(), 2, &[(0, 1), (1, 0)]), &[0, 1]));
    // one that depends on itself
    assert!(rt; is_circle(ordered(rt.alloc(), 1, &[(0, 0)]), &[0]));
}

#[test]
fn circles_by_the_rule(rt: HostRuntime) {
    // a circle after the least vertex that can't be ordered
    assert!(rt; is_circle(ordered(rt.alloc(), 3, &[(0, 1), (1, 2), (2, 1)]), &[1, 2]));
    // the least of several dependencies, whatever comes first
    let pairs = [(1, 3), (1, 2), (2, 1), (3, 1)];
    assert!(rt; is_circle(ordered(rt.alloc(), 4, &pairs), &[1, 2]));
    // a dependency that can be ordered is no part of a circle
    assert!(rt; is_circle(ordered(rt.alloc(), 3, &[(1, 0), (1, 2), (2, 1)]), &[1, 2]));
}
