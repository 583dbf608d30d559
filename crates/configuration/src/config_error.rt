// Why there is no configuration.
ghost use Rattle.std.specs.Prelude.{◌≡◌};
ghost use Rattle.configuration.specs.Causes.{of_extensions};
ghost use Rattle.configuration.specs.declared.config_error.ConfigError.TheVariants.{NoMemory};

use crate::vertex::Vertex;
use ext_tree::{ExtError, ExtId, ExtIds};
use listed::Listed;
use std::alloc::AllocError;
use thiserror::Error;

/// Why there is no configuration.
#[derive(Debug, Drop, Error)]
pub enum ConfigError {
    /// Out of memory.
    #[error("out of memory")]
    NoMemory,
    /// An id of the base or of the set contents is no node of the arena: the least one.
    #[error("extension {id} is not known")]
    UnknownExt {
        id: ExtId,
    },
    /// The walk met a second slot node of a compartment.
    #[error("compartment {compartment} has two slots, {first} and {second}")]
    DuplicateCompartment {
        compartment: u32,
        first: ExtId,
        second: ExtId,
    },
    /// The walk met a slot whose compartment stands on the path above it: the slot nodes from that one to this.
    #[error("a compartment is part of its own content")]
    CompartmentLoop {
        path: ExtIds,
    },
    /// Facets and fields depend on one another: each member on the next, and the last on the first.
    #[error("facets and fields depend on one another in a circle")]
    Cycle {
        members: Listed<Vertex>,
    },
}

impl From<AllocError> for ConfigError {
    ghost from_gives = { λ _ error. error ≡ NoMemory };

    fn from(_error: AllocError) -> ConfigError {
        ConfigError::NoMemory
    }
}

impl From<ExtError> for ConfigError {
    ghost from_gives = { λ given error. error ≡ of_extensions given };

    fn from(error: ExtError) -> ConfigError {
        match error {
            ExtError::NoMemory => ConfigError::NoMemory,
            ExtError::UnknownExt { id } => ConfigError::UnknownExt { id },
            ExtError::DuplicateCompartment {
                compartment,
                first,
                second,
            } => ConfigError::DuplicateCompartment {
                compartment,
                first,
                second,
            },
            ExtError::CompartmentLoop { path } => ConfigError::CompartmentLoop { path },
        }
    }
}
