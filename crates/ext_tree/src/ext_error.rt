// Why extensions are refused.
ghost use Rattle.std.specs.Prelude.{◌≡◌};
ghost use Rattle.ext_tree.specs.declared.ext_error.ExtError.TheVariants.{NoMemory};

use crate::ext_ids::ExtIds;
use crate::node::ExtId;
use std::alloc::{AllocError, AllocFailed};
use thiserror::Error;

/// Why extensions are refused.
#[derive(Debug, Drop, Error)]
pub enum ExtError {
    /// Out of memory.
    #[error("out of memory")]
    NoMemory,
    /// An id of the call is no node of the arena: the least one.
    #[error("extension {id} is not known")]
    UnknownExt {
        id: ExtId,
    },
    /// The walk met a second slot node of a compartment.
    #[error("compartment {compartment} has two slots, {first} and {second}")]
    DuplicateCompartment {
        compartment: u32,
        first: ExtId,
        second: ExtId,
    },
    /// The walk met a slot whose compartment stands on the path above it: the slot nodes from that one to this.
    #[error("a compartment is part of its own content")]
    CompartmentLoop {
        path: ExtIds,
    },
}

impl From<AllocError> for ExtError {
    ghost from_gives = { λ _ error. error ≡ NoMemory };

    fn from(_error: AllocError) -> ExtError {
        ExtError::NoMemory
    }
}

impl<T: Drop> From<AllocFailed<T>> for ExtError {
    ghost from_gives = { λ _ error. error ≡ NoMemory };

    fn from(_error: AllocFailed<T>) -> ExtError {
        ExtError::NoMemory
    }
}
