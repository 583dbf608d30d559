//! An order of the vertices of a dependency graph, or the circle that stands in its way.
//!
//! Vertices are the numbers less than a count, an edge says that a vertex depends on another. A layer above may rely on
//! this: `order` lists each vertex once and after all that it depends on; where there is no such order it answers the
//! one circle that the rule names, whose members each depend on the next and the last on the first. The work is linear
//! in vertices and edges, which is not proved.
#![tactic(auto)]

mod circle;
mod dependency_order;
mod dependents;
mod edge;
mod graph;
mod order_error;
mod progress;

pub use dependency_order::order;
pub use edge::Edge;
pub use order_error::OrderError;
