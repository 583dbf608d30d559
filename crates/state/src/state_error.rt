// Why there is no state.
ghost use Rattle.std.specs.Prelude.{◌≡◌};
ghost use Rattle.state.specs.declared.state_error.StateError.TheVariants.{NoMemory};

use configuration::{ConfigError, Vertex};
use ext_tree::{ExtId, ExtIds};
use listed::Listed;
use std::alloc::AllocError;
use thiserror::Error;
use transaction::TransactionError;

/// Why a state is refused. Positions and lengths are in characters, and indexes count from 0.
#[derive(Debug, Drop, Error)]
pub enum StateError {
    /// The range of the change with this index in its spec is reversed, or ends past the spec's start document.
    #[error("change {index} has the range from {from} to {to} of a document of length {len}")]
    BadRange {
        index: usize,
        from: u32,
        to: u32,
        len: u32,
    },
    /// A change set is over another length than its spec's start document.
    #[error("a change set over length {have} where the document has length {want}")]
    LengthMismatch {
        want: u32,
        have: u32,
    },
    /// The document, or what changes lead to, is longer than `max`.
    #[error("the document has length {len}, and at most {max} is allowed")]
    TooLong {
        len: u64,
        max: u32,
    },
    /// A given selection has no range.
    #[error("a selection needs a range")]
    NoRanges,
    /// The main range of a given selection is none of its ranges.
    #[error("the main range {main} is none of {count} ranges")]
    BadMain {
        main: usize,
        count: usize,
    },
    /// The greater end of a range of a selection lies past its document.
    #[error("the selection reaches {pos} in a document of length {len}")]
    SelectionOutside {
        pos: u32,
        len: u32,
    },
    /// No effect kind has this id.
    #[error("no effect kind has the id {id}")]
    UnknownEffect {
        id: u32,
    },
    /// No compartment has this id.
    #[error("no compartment has the id {id}")]
    UnknownCompartment {
        id: u32,
    },
    /// An id of the base or of the set contents is no node: the least one.
    #[error("extension {id} is not known")]
    UnknownExt {
        id: ExtId,
    },
    /// A compartment has two slots in the configuration.
    #[error("compartment {compartment} has two slots, {first} and {second}")]
    DuplicateCompartment {
        compartment: u32,
        first: ExtId,
        second: ExtId,
    },
    /// A compartment is part of its own content: the slot nodes from the one to the other.
    #[error("a compartment is part of its own content")]
    CompartmentLoop {
        path: ExtIds,
    },
    /// Facets and fields depend on one another: each member on the next, and the last on the first.
    #[error("facets and fields depend on one another in a circle")]
    Cycle {
        members: Listed<Vertex>,
    },
    /// Out of memory.
    #[error("out of memory")]
    NoMemory,
}

impl From<AllocError> for StateError {
    ghost from_gives = { λ _ e. e ≡ NoMemory };

    fn from(_error: AllocError) -> StateError {
        StateError::NoMemory
    }
}

impl From<TransactionError> for StateError {
    ghost use Rattle.state.specs.Refusals.{of_transaction_error};

    ghost from_gives = { λ e r. r ≡ of_transaction_error e };

    fn from(error: TransactionError) -> StateError {
        match error {
            TransactionError::BadRange {
                index,
                from,
                to,
                len,
            } => StateError::BadRange {
                index,
                from,
                to,
                len,
            },
            TransactionError::LengthMismatch { want, have } => {
                StateError::LengthMismatch { want, have }
            }
            TransactionError::TooLong { len, max } => StateError::TooLong { len, max },
            TransactionError::NoRanges => StateError::NoRanges,
            TransactionError::BadMain { main, count } => StateError::BadMain { main, count },
            TransactionError::SelectionOutside { pos, len } => {
                StateError::SelectionOutside { pos, len }
            }
            TransactionError::UnknownEffect { id } => StateError::UnknownEffect { id },
            TransactionError::UnknownCompartment { id } => StateError::UnknownCompartment { id },
            TransactionError::NoMemory => StateError::NoMemory,
        }
    }
}

impl From<ConfigError> for StateError {
    ghost use Rattle.state.specs.Refusals.{of_config_error};

    ghost from_gives = { λ e r. r ≡ of_config_error e };

    fn from(error: ConfigError) -> StateError {
        match error {
            ConfigError::NoMemory => StateError::NoMemory,
            ConfigError::UnknownExt { id } => StateError::UnknownExt { id },
            ConfigError::DuplicateCompartment {
                compartment,
                first,
                second,
            } => StateError::DuplicateCompartment {
                compartment,
                first,
                second,
            },
            ConfigError::CompartmentLoop { path } => StateError::CompartmentLoop { path },
            ConfigError::Cycle { members } => StateError::Cycle { members },
        }
    }
}
