ghost use Rattle.std.specs.Prelude.{◌≡◌, ◌≤◌, length, Some, None, option_map, if◌then◌else◌, IfOk};
ghost use Rattle.std.specs.Str.{chars, is_utf8};
ghost use Rattle.line_tree.specs.Text.{cut, max_len};
ghost use Rattle.file_text.specs.Files.{file_text, within_limit};
ghost use Rattle.file_text.specs.Opening.{Gives};

use crate::file_error::FileError;
use line_tree::{MAX_LEN, Text};
use std::alloc::{AllocError, Global};

/// The bytes as text, where they are UTF-8.
#[tactic(auto, using(crate::proofs::Utf8::is_text, crate::proofs::Utf8::is_no_text))]
fn utf8(bytes: &[u8]) -> Option<&str>
    ensures { option_map (λ s. s.now) result ≡ (if is_utf8 bytes.now then Some bytes.now else None) }
{
    str::from_utf8(bytes).ok()
}

/// How long the text of a string is, in characters: CRLF, CR and LF count one each.
fn cut_length(string: &str) -> u64
    ensures { result ≡ length (cut (chars string.now)) }
{
    let mut len = 0;
    let mut after_return = false;
    for c in string.chars() {
        if !(c == '\n' && after_return) {
            len += 1;
        }
        after_return = c == '\r';
    }
    len
}

/// The characters of a string. `Err`: out of memory.
fn characters_of(alloc: Global, string: &str) -> Result<Vec<char>, AllocError>
    ensures { IfOk result (λ v. v.items ≡ chars string.now) }
{
    string.chars().collect(alloc)
}

/// The text of a string. `Err`: out of memory.
fn text_of(alloc: Global, string: &str) -> Result<Text, AllocError>
    requires { length (cut (chars string.now)) ≤ max_len }
    ensures { IfOk result (λ t. t.characters ≡ cut (chars string.now)) }
{
    let characters = characters_of(alloc, string)?;
    Text::of(alloc, characters.as_slice())
}

/// The text of a string, unless it is longer than a document may be.
fn string_text(alloc: Global, string: &str) -> Result<Text, FileError>
    ensures { Gives (λ t. t.characters) result (within_limit (cut (chars string.now))) }
{
    let len = cut_length(string);
    if len > u64::from(MAX_LEN) {
        return Err(FileError::TooLong { len });
    }
    Ok(text_of(alloc, string)?)
}

/// The text of a file's bytes, cut into lines at CRLF, CR and LF. `NotUtf8`: exactly where the bytes aren't UTF-8.
/// `TooLong`: else, and exactly where the text would have more than 16,777,216 characters; it tells how many. `NoMemory`: out of
/// memory, and only where the bytes have neither fault.
pub fn file_text(alloc: Global, bytes: &[u8]) -> Result<Text, FileError>
    ensures { Gives (λ t. t.characters) result (file_text bytes.now) }
{
    match utf8(bytes) {
        Some(string) => string_text(alloc, string),
        None => Err(FileError::NotUtf8),
    }
}
