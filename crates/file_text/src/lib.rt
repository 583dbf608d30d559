//! The text of files: the bytes that a save writes and the text that a file's bytes hold.
//!
//! The layer above may rely on this: `saved_bytes` gives exactly the UTF-8 of the text with the separator in place of
//! each break; `file_text` gives the text of a file, cut into lines at CRLF, CR and LF, and refuses exactly the bytes that
//! aren't UTF-8 and the texts that are longer than a document may be. What a text without CR was saved as, with LF,
//! CRLF or CR, reads back as that text.
#![tactic(auto)]

mod file_error;
mod opening;
mod saving;

pub use file_error::FileError;
pub use opening::file_text;
pub use saving::saved_bytes;
