// Why a key is refused.
ghost use Rattle.std.specs.Prelude.{◌≡◌};
ghost use Rattle.typed_keys.specs.declared.key_error.KeyError.TheVariants.{NoMemory};

use std::alloc::AllocError;
use thiserror::Error;

/// Why a key is refused.
#[derive(Debug, Drop, Error)]
pub enum KeyError {
    /// Out of memory.
    #[error("out of memory")]
    NoMemory,
    /// The shape of a type doesn't fit that of the facet or field with this id.
    #[error("{id} is of another shape")]
    WrongShape { id: u32 },
}

impl From<AllocError> for KeyError {
    ghost from_gives = { λ _ error. error ≡ NoMemory };

    fn from(_error: AllocError) -> KeyError {
        KeyError::NoMemory
    }
}
