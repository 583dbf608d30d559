ghost use Rattle.std.specs.Prelude.{◌≡◌, ◌++◌, ◌≤◌, [], ◌∷◌, length, OnOk, IfOk, string_bytes, encode_utf8_all};
ghost use Rattle.line_tree.specs.Text.{slice};
ghost use Rattle.file_text.specs.Files.{saved_bytes, ReadsBack};

use line_tree::Text;
use std::alloc::{AllocError, Global};

/// So many characters of a text are taken from it at a time.
const BLOCK: u32 = 4096;

/// Adds the characters in UTF-8.
fn push_characters(saved: &mut String, characters: &[char]) -> Result<(), AllocError>
    ensures { OnOk result (string_bytes saved.new ≡ string_bytes saved.old ++ encode_utf8_all characters.now) }
{
    for c in characters {
        saved.push(*c)?;
    }
    Ok(())
}

/// Adds what a character is saved as.
fn push_saved_char(saved: &mut String, c: char, separator: &[char]) -> Result<(), AllocError>
    ensures { OnOk result (string_bytes saved.new ≡ string_bytes saved.old ++ saved_bytes separator.now (c ∷ [])) }
{
    if c == '\n' {
        push_characters(saved, separator)
    } else {
        saved.push(c)
    }
}

/// Adds what characters are saved as.
fn push_saved(saved: &mut String, characters: &[char], separator: &[char]) -> Result<(), AllocError>
    ensures { OnOk result (string_bytes saved.new ≡ string_bytes saved.old ++ saved_bytes separator.now characters.now) }
{
    for c in characters {
        push_saved_char(saved, *c, separator)?;
    }
    Ok(())
}

/// Adds what the characters of a text from one place to another are saved as.
fn push_block(
    saved: &mut String,
    text: &Text,
    from: u32,
    to: u32,
    separator: &[char],
) -> Result<(), AllocError>
    requires order { from ≤ to }
    requires within { to ≤ length text.now.characters }
    ensures { OnOk result (string_bytes saved.new ≡ string_bytes saved.old ++ saved_bytes separator.now (slice from to text.now.characters)) }
{
    let block = text.slice(from, to)?;
    let characters = block.chars()?;
    push_saved(saved, characters.as_slice(), separator)
}

/// The text as a save writes it, with the separator in place of each break.
fn saved_string(alloc: Global, text: &Text, separator: &[char]) -> Result<String, AllocError>
    ensures { IfOk result (λ s. string_bytes s ≡ saved_bytes separator.now text.now.characters) }
{
    let len = text.len();
    let mut saved = String::with_capacity(alloc, len as usize)?;
    let mut pos = 0;
    while pos < len {
        let end = pos + (len - pos).min(BLOCK);
        push_block(&mut saved, text, pos, end, separator)?;
        pos = end;
    }
    Ok(saved)
}

/// The text in UTF-8 as a save writes it, with the separator in place of each break. Where the separator is LF, CRLF or CR and
/// the text has no CR, the bytes read as the same text. `Err`: out of memory.
pub fn saved_bytes(alloc: Global, text: &Text, separator: &[char]) -> Result<Vec<u8>, AllocError>
    ensures value { IfOk result (λ v. v.items ≡ saved_bytes separator.now text.now.characters) }
    ensures reads_back { IfOk result (λ v. ReadsBack separator.now text.now.characters v.items) }
{
    let saved = saved_string(alloc, text, separator)?;
    Ok(saved.into_bytes())
}
