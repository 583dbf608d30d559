ghost use Rattle.std.specs.Prelude.{◌≡◌};
ghost use Rattle.collab.specs.declared.error.CollabError.TheVariants.{NoMemory};

use change_set::ChangesError;
use std::alloc::AllocError;
use thiserror::Error;

/// Why an event of collaboration is refused. Positions and lengths are in characters, versions count updates, and indexes count
/// from 0.
#[derive(Debug, PartialEq, Eq, Drop, Error)]
pub enum CollabError {
    /// The local change with this index has a range that is reversed, or that ends past the client's text.
    #[error("change {index} has the range from {from} to {to} of a document of length {len}")]
    BadRange {
        index: usize,
        from: u32,
        to: u32,
        len: u32,
    },
    /// A change set is over another length than the client's text.
    #[error("a change set over length {have} where the document has length {want}")]
    LengthMismatch {
        want: u32,
        have: u32,
    },
    /// A text would have `len` characters, which is more than `max`.
    #[error("a text would have length {len}, and at most {max} is allowed")]
    TooLong {
        len: u64,
        max: u32,
    },
    /// Updates were pushed over another version than the authority's, which is given.
    #[error("the authority is at version {version}")]
    Stale {
        version: u32,
    },
    /// Updates from this position on were received by a client at an earlier version, which is given.
    #[error("updates from {from} on at version {version}")]
    Ahead {
        from: u32,
        version: u32,
    },
    /// Out of memory.
    #[error("out of memory")]
    NoMemory,
}

impl From<AllocError> for CollabError {
    ghost from_gives = { λ _ e. e ≡ NoMemory };

    fn from(_error: AllocError) -> CollabError {
        CollabError::NoMemory
    }
}

impl From<ChangesError> for CollabError {
    ghost use Rattle.collab.specs.Errors.{of_changes_error};

    ghost from_gives = { λ e r. r ≡ of_changes_error e };

    fn from(error: ChangesError) -> CollabError {
        match error {
            ChangesError::BadRange {
                index,
                from,
                to,
                len,
            } => CollabError::BadRange {
                index,
                from,
                to,
                len,
            },
            ChangesError::LengthMismatch { want, have } => {
                CollabError::LengthMismatch { want, have }
            }
            ChangesError::TooLong { len, max } => CollabError::TooLong { len, max },
            ChangesError::NoMemory => CollabError::NoMemory,
        }
    }
}
