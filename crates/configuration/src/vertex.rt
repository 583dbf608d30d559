// A vertex of the dependency graph.
ghost use Rattle.std.specs.Prelude.{◌≡◌, map, IfOk};
ghost use Rattle.configuration.specs.Vertices.{vertex_at};

use std::alloc::{AllocError, Global};

/// A vertex of the dependency graph: a facet or a field, by its id.
#[derive(Clone, Copy, Debug, PartialEq, Eq)]
pub enum Vertex {
    Facet(u32),
    Field(u32),
}

/// The vertex of a number: facets first, then fields, each by id.
pub fn vertex_at(facets: u32, number: u32) -> Vertex
    ensures { result ≡ vertex_at facets number }
{
    if number < facets {
        Vertex::Facet(number)
    } else {
        Vertex::Field(number - facets)
    }
}

/// The vertices of some numbers.
pub fn vertices_at(alloc: Global, facets: u32, numbers: &[u32]) -> Result<Vec<Vertex>, AllocError>
    ensures { IfOk result (λ vertices. vertices.items ≡ map (vertex_at facets) numbers.now) }
{
    let mut vertices = Vec::new(alloc);
    for number in numbers {
        vertices.push(vertex_at(facets, *number))?;
    }
    Ok(vertices)
}
