ghost use Rattle.std.specs.Prelude.{◌≡◌};
ghost use Rattle.range_set.specs.declared.range_error.RangeError.TheVariants.{NoMemory};

use std::alloc::{AllocError, AllocFailed};
use thiserror::Error;

/// Why a list of ranges makes no set. An index is the range's place in the list, from 0.
#[derive(Clone, Copy, Debug, PartialEq, Eq, Drop, Error)]
pub enum RangeError {
    /// The range ends before it starts.
    #[error("range {index} ends before it starts")]
    Reversed { index: usize },
    /// The range belongs before the one before it.
    #[error("range {index} belongs before the one before it")]
    NotSorted { index: usize },
    /// Out of memory.
    #[error("out of memory")]
    NoMemory,
}

impl From<AllocError> for RangeError {
    ghost from_gives = { λ _ e. e ≡ NoMemory };

    fn from(_error: AllocError) -> RangeError {
        RangeError::NoMemory
    }
}
