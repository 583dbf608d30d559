// Why there is no order.
ghost use Rattle.std.specs.Prelude.{◌≡◌};
ghost use Rattle.dep_graph.specs.declared.order_error.OrderError.TheVariants.{NoMemory};

use std::alloc::AllocError;
use thiserror::Error;

/// Why there is no order.
#[derive(Debug, Drop, Error)]
pub enum OrderError {
    /// Out of memory.
    #[error("out of memory")]
    NoMemory,
    /// Some vertices depend on one another. Each member depends on the next, and the last on the first. The walk to
    /// them begins at the least vertex that can't be ordered and goes on to the least such dependency until a vertex
    /// comes again; the members run from its first visit.
    #[error("vertices depend on one another in a circle")]
    Cycle { members: Vec<u32> },
}

impl From<AllocError> for OrderError {
    ghost from_gives = { λ _ error. error ≡ NoMemory };

    fn from(_error: AllocError) -> OrderError {
        OrderError::NoMemory
    }
}
