//! What the tests share.
use file_text::{FileError, file_text, saved_bytes};
use line_tree::{MAX_LEN, Text, cut_len};
use std::alloc::{AllocError, Global};

/// The text of these characters, of which there are few.
fn text(alloc: Global, characters: &[char]) -> Result<Text, AllocError> {
    if cut_len(characters) > MAX_LEN as usize {
        return Text::empty(alloc);
    }
    Text::of(alloc, characters)
}

fn is(text: &Text, characters: &[char]) -> Result<bool, AllocError> {
    let chars = text.chars()?;
    Ok(chars.as_slice() == characters)
}

/// Whether a file of these bytes has the text of these characters.
pub(crate) fn reads_as(alloc: Global, bytes: &[u8], want: &[char]) -> Result<bool, FileError> {
    let text = file_text(alloc, bytes)?;
    Ok(is(&text, want)?)
}

/// The length of the text of a file of so many letters x.
pub(crate) fn read_length(alloc: Global, count: usize) -> Result<u32, FileError> {
    let bytes = vec![in alloc; b'x'; count]?;
    let text = file_text(alloc, bytes.as_slice())?;
    Ok(text.len())
}

/// Why a file of these bytes gives no text.
pub(crate) fn fault(alloc: Global, bytes: &[u8]) -> Option<FileError> {
    file_text(alloc, bytes).err()
}

/// What the text of these characters is saved as.
fn written(alloc: Global, characters: &[char], separator: &[char]) -> Result<Vec<u8>, AllocError> {
    let text = text(alloc, characters)?;
    saved_bytes(alloc, &text, separator)
}

/// Whether the text of these characters is saved as these bytes.
pub(crate) fn saves_as(
    alloc: Global,
    characters: &[char],
    separator: &[char],
    want: &[u8],
) -> Result<bool, AllocError> {
    let bytes = written(alloc, characters, separator)?;
    Ok(bytes.as_slice() == want)
}

/// How many bytes the text of these characters is saved as.
pub(crate) fn saved_length(
    alloc: Global,
    characters: &[char],
    separator: &[char],
) -> Result<usize, AllocError> {
    let bytes = written(alloc, characters, separator)?;
    Ok(bytes.len())
}
