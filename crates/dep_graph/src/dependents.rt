// The vertices that depend on each vertex.
ghost use Rattle.std.specs.Prelude.{◌≡◌, All, IfOk};
ghost use Rattle.dep_graph.specs.Counting.{AreDependents};
ghost use Rattle.dep_graph.specs.Order.{IsEdge};

use crate::edge::Edge;
use std::alloc::{AllocError, Global};

/// The vertices that depend on one, once for each edge.
#[derive(Drop)]
pub struct Dependents {
    pub vertices: Vec<u32>,
}

/// The dependents of each vertex.
pub fn listed(alloc: Global, count: u32, edges: &[Edge]) -> Result<Vec<Dependents>, AllocError>
    requires { All (IsEdge count) edges.now }
    ensures { IfOk result (λ all. AreDependents count edges.now all.items) }
{
    let mut all = Vec::new(alloc);
    // One by one, since a list can't be copied without memory.
    for _vertex in 0..count {
        all.push(Dependents {
            vertices: Vec::new(alloc),
        })?;
    }
    for edge in edges {
        all[edge.dependency as usize].vertices.push(edge.vertex)?;
    }
    Ok(all)
}
