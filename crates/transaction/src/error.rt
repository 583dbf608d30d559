ghost use Rattle.std.specs.Prelude.{◌≡◌};
ghost use Rattle.transaction.specs.declared.error.TransactionError.TheVariants.{NoMemory};

use change_set::ChangesError;
use selection::SelectionError;
use std::alloc::AllocError;
use thiserror::Error;

/// Why specs are refused. Positions and lengths are in characters, and indexes count from 0.
#[derive(Debug, Drop, Error)]
pub enum TransactionError {
    /// The range of the change with this index in its spec is reversed, or ends past the spec's start document.
    #[error("change {index} has the range from {from} to {to} of a document of length {len}")]
    BadRange {
        index: usize,
        from: u32,
        to: u32,
        len: u32,
    },
    /// A change set is over another length than its spec's start document.
    #[error("a change set over length {have} where the document has length {want}")]
    LengthMismatch {
        want: u32,
        have: u32,
    },
    /// The changes of a spec, or those of all specs so far, lead to a document longer than `max`.
    #[error("the changed document has length {len}, and at most {max} is allowed")]
    TooLong {
        len: u64,
        max: u32,
    },
    /// A given selection has no range.
    #[error("a selection needs a range")]
    NoRanges,
    /// The main range of a given selection is none of its ranges.
    #[error("the main range {main} is none of {count} ranges")]
    BadMain {
        main: usize,
        count: usize,
    },
    /// The greater end of a range of a given selection lies past the document after the spec's own changes.
    #[error("the selection reaches {pos} in a document of length {len}")]
    SelectionOutside {
        pos: u32,
        len: u32,
    },
    /// No effect kind has this id.
    #[error("no effect kind has the id {id}")]
    UnknownEffect {
        id: u32,
    },
    /// No compartment has this id.
    #[error("no compartment has the id {id}")]
    UnknownCompartment {
        id: u32,
    },
    /// Out of memory.
    #[error("out of memory")]
    NoMemory,
}

impl From<AllocError> for TransactionError {
    ghost from_gives = { λ _ e. e ≡ NoMemory };

    fn from(_error: AllocError) -> TransactionError {
        TransactionError::NoMemory
    }
}

impl From<ChangesError> for TransactionError {
    ghost use Rattle.transaction.specs.Refusals.{of_changes_error};

    ghost from_gives = { λ e r. r ≡ of_changes_error e };

    fn from(error: ChangesError) -> TransactionError {
        match error {
            ChangesError::BadRange {
                index,
                from,
                to,
                len,
            } => TransactionError::BadRange {
                index,
                from,
                to,
                len,
            },
            ChangesError::LengthMismatch { want, have } => {
                TransactionError::LengthMismatch { want, have }
            }
            ChangesError::TooLong { len, max } => TransactionError::TooLong { len, max },
            ChangesError::NoMemory => TransactionError::NoMemory,
        }
    }
}

impl From<SelectionError> for TransactionError {
    ghost use Rattle.transaction.specs.Refusals.{of_selection_error};

    ghost from_gives = { λ e r. r ≡ of_selection_error e };

    fn from(error: SelectionError) -> TransactionError {
        match error {
            SelectionError::NoRanges => TransactionError::NoRanges,
            SelectionError::BadMain { main, count } => TransactionError::BadMain { main, count },
            SelectionError::NoMemory => TransactionError::NoMemory,
        }
    }
}
