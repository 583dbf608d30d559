// An order of the vertices of a dependency graph.
ghost use Rattle.std.specs.Prelude.{◌≡◌, All, IfOk, IfErr, IfSome};
ghost use Rattle.dep_graph.specs.Order.{IsEdge, IsOrder, IsCircle};
ghost use Rattle.dep_graph.specs.Laws.{IsRing, HasNoOrder};
ghost use Rattle.dep_graph.specs.ErrorMembers.{members_of};

use crate::circle::circle;
use crate::dependents::listed;
use crate::edge::Edge;
use crate::graph::Graph;
use crate::order_error::OrderError;
use crate::progress::{first_waiting, run};
use std::alloc::Global;

/// Each vertex less than the count once, and after all that it depends on. Both ends of each edge must be less than the
/// count. Refused as `Cycle` exactly where there is no such order, with the members of the circle that the walk from the
/// least vertex that can't be ordered leads to: each depends on the next, and the last on the first.
#[tactic(auto, using(crate::proofs::Rings::circles_rings, crate::proofs::Rings::circles_no_order))]
pub fn order(alloc: Global, count: u32, edges: Vec<Edge>) -> Result<Vec<u32>, OrderError>
    requires { All (IsEdge count) edges.items }
    ensures order { IfOk result (λ order. IsOrder count edges.items order.items) }
    ensures cycle { IfErr result (λ error. IfSome (members_of error) (λ members. IsCircle count edges.items members)) }
    ensures ring { IfErr result (λ error. IfSome (members_of error) (λ members. IsRing edges.items members)) }
    ensures no_order { IfErr result (λ error. IfSome (members_of error) (λ members. HasNoOrder count edges.items)) }
{
    let dependents = listed(alloc, count, &edges)?;
    let graph = Graph {
        count,
        edges,
        dependents,
    };
    let progress = run(alloc, &graph)?;
    match first_waiting(count, &progress.counts) {
        None => Ok(progress.order),
        Some(first) => {
            let members = circle(alloc, &graph, &progress, first)?;
            Err(OrderError::Cycle { members })
        }
    }
}
