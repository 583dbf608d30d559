// An edge of a dependency graph.

/// A vertex depends on another.
#[derive(Clone, Copy)]
pub struct Edge {
    /// The vertex that depends.
    pub vertex: u32,
    /// The vertex that it depends on.
    pub dependency: u32,
}
