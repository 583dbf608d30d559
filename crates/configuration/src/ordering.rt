// An order of facets and fields.
ghost use Rattle.std.specs.Prelude.{All, IfOk, IfErr};
ghost use Rattle.dep_graph.specs.Order.{IsEdge};
ghost use Rattle.configuration.specs.Vertices.{AreOrdered};
ghost use Rattle.configuration.specs.Causes.{IsOrderCause};

use crate::config_error::ConfigError;
use crate::vertex::{Vertex, vertices_at};
use dep_graph::{Edge, OrderError, order};
use listed::Listed;
use std::alloc::Global;

/// The facets and fields in an order in which each stands after what it depends on.
pub fn ordered(
    alloc: Global,
    facets: u32,
    count: u32,
    edges: Vec<Edge>,
) -> Result<Vec<Vertex>, ConfigError>
    requires { All (IsEdge count) edges.items }
    ensures order { IfOk result (λ order. AreOrdered facets count edges.items order.items) }
    ensures cycle { IfErr result (λ error. IsOrderCause facets count edges.items error) }
{
    match order(alloc, count, edges) {
        Ok(numbers) => {
            let order = vertices_at(alloc, facets, &numbers)?;
            Ok(order)
        }
        Err(OrderError::NoMemory) => Err(ConfigError::NoMemory),
        Err(OrderError::Cycle { members }) => {
            let members = Listed::new(vertices_at(alloc, facets, &members)?);
            Err(ConfigError::Cycle { members })
        }
    }
}
