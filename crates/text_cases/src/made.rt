//! What the tests share.
use line_tree::{MAX_LEN, Text, cut_len};
use std::alloc::{AllocError, Global};

/// The text of these characters, of which there are few.
pub(crate) fn text(alloc: Global, characters: &[char]) -> Result<Text, AllocError> {
    if cut_len(characters) > MAX_LEN as usize {
        return Text::empty(alloc);
    }
    Text::of(alloc, characters)
}

/// Whether the text has these characters.
pub(crate) fn is(text: &Text, characters: &[char]) -> Result<bool, AllocError> {
    let chars = text.chars()?;
    Ok(chars.as_slice() == characters)
}

/// The text with another in place of some characters; without characters, where it is shorter.
pub(crate) fn replaced(
    text: &Text,
    from: u32,
    to: u32,
    inserted: &Text,
) -> Result<Text, AllocError> {
    if from > to || to > text.len() || text.len() > MAX_LEN || inserted.len() > MAX_LEN {
        return inserted.slice(0, 0);
    }
    text.replace(from, to, inserted)
}

/// Some characters of the text; none, where it is shorter.
pub(crate) fn taken(text: &Text, from: u32, to: u32) -> Result<Text, AllocError> {
    if from > to || to > text.len() {
        return text.slice(0, 0);
    }
    text.slice(from, to)
}
