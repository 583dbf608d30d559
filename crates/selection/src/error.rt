ghost use Rattle.std.specs.Prelude.{◌≡◌};
ghost use Rattle.selection.specs.declared.error.SelectionError.TheVariants.{NoMemory};

use std::alloc::AllocError;
use thiserror::Error;

/// Why ranges make no selection.
#[derive(Debug, PartialEq, Eq, Drop, Error)]
pub enum SelectionError {
    /// There is no range.
    #[error("a selection needs a range")]
    NoRanges,
    /// The main range is to be the one with index `main`, counted from 0, and there are `count` ranges.
    #[error("the main range {main} is none of {count} ranges")]
    BadMain { main: usize, count: usize },
    /// Out of memory.
    #[error("out of memory")]
    NoMemory,
}

impl From<AllocError> for SelectionError {
    ghost from_gives = { λ _ e. e ≡ NoMemory };

    fn from(_error: AllocError) -> SelectionError {
        SelectionError::NoMemory
    }
}
