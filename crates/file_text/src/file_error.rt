ghost use Rattle.std.specs.Prelude.{◌≡◌};
ghost use Rattle.file_text.specs.declared.file_error.FileError.TheVariants.{NoMemory};

use std::alloc::AllocError;
use thiserror::Error;

/// Why a file gives no text.
#[derive(Clone, Copy, PartialEq, Eq, Debug, Drop, Error)]
pub enum FileError {
    /// The bytes aren't UTF-8.
    #[error("the bytes aren't UTF-8")]
    NotUtf8,
    /// The text would have `len` characters, which is more than a document may have.
    #[error("the text has length {len}")]
    TooLong { len: u64 },
    /// Out of memory.
    #[error("out of memory")]
    NoMemory,
}

impl From<AllocError> for FileError {
    ghost from_gives = { λ _ e. e ≡ NoMemory };

    fn from(_error: AllocError) -> FileError {
        FileError::NoMemory
    }
}
