use thiserror::Error;

/// Why a file was not loaded or saved.
#[derive(Clone, Copy, Debug, PartialEq, Eq, Error)]
pub enum StoreFault {
    /// The store failed. Its count of faults rose with it.
    #[error("a file could not be loaded or saved")]
    Failed,
    /// Out of memory.
    #[error("out of memory")]
    NoMemory,
}
