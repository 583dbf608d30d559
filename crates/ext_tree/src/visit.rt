// A node at a precedence.
use crate::node::ExtId;
use crate::precedence::Precedence;

/// A node at a precedence.
#[derive(Clone, Copy)]
pub struct Visit {
    pub node: ExtId,
    pub precedence: Precedence,
}
