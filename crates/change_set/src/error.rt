ghost use Rattle.std.specs.Prelude.{◌≡◌};
ghost use Rattle.change_set.specs.declared.error.ChangesError.TheVariants.{NoMemory};

use std::alloc::AllocError;
use thiserror::Error;

/// Why a list of changes makes no set (Reference Manual: ChangeSet.of).
#[derive(Debug, Drop, Error)]
pub enum ChangesError {
    /// The change with this index, which counts from 0, replaces a range that is reversed or ends past the document;
    /// places and the document's length are in characters.
    #[error("change {index} has the range from {from} to {to} of a document of length {len}")]
    BadRange {
        index: usize,
        from: u32,
        to: u32,
        len: u32,
    },
    /// A set in the list is over a document of length `have`, and the changes are over one of length `want`.
    #[error("a change set over length {have} where the document has length {want}")]
    LengthMismatch {
        want: u32,
        have: u32,
    },
    /// A running total of the changes leads to a text of `len` characters, which is more than `max`.
    #[error("the changed document has length {len}, and at most {max} is allowed")]
    TooLong {
        len: u64,
        max: u32,
    },
    /// Out of memory.
    #[error("out of memory")]
    NoMemory,
}

impl From<AllocError> for ChangesError {
    ghost from_gives = { λ _ e. e ≡ NoMemory };

    fn from(_error: AllocError) -> ChangesError {
        ChangesError::NoMemory
    }
}
