// A dependency graph.
ghost use Rattle.std.specs.Prelude.{◌≡◌, ◌<◌};
ghost use Rattle.dep_graph.specs.Counting.{IsGraph, dependents_of};

use crate::dependents::Dependents;
use crate::edge::Edge;

/// The vertices less than a count, what each depends on and what depends on each.
#[derive(Drop)]
pub struct Graph {
    pub count: u32,
    pub edges: Vec<Edge>,
    pub dependents: Vec<Dependents>,
}

/// The vertices that depend on one.
pub fn dependents_of(graph: &Graph, vertex: u32) -> &[u32]
    requires graph { IsGraph graph.now }
    requires vertex { vertex < graph.now.count }
    ensures { result.now ≡ dependents_of vertex graph.now.edges.items }
{
    &graph.dependents[vertex as usize].vertices
}
