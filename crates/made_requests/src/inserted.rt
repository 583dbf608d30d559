ghost use Rattle.std.specs.Prelude.{◌≡◌, [], IfOk};
ghost use Rattle.workload.specs.Edits.{character, made_text};

use change_set::InsertedText;
use line_tree::{Text, TextBuilder};
use smallvec::SmallVec;
use std::alloc::{AllocError, Global};

/// The character at an index of a made text.
fn character(letter: u32, index: u8) -> char
    ensures { result ≡ character letter index }
{
    if index == 7 {
        return '\n';
    }
    let number = (u64::from(letter) + u64::from(index)) % 26;
    char::from(b'a' + number as u8)
}

/// The made text of a size, by the draw that chose its first letter. `Err`: out of memory.
pub(crate) fn made_text(alloc: Global, size: u8, letter: u32) -> Result<InsertedText, AllocError>
    ensures { IfOk result (λ text. text ≡ made_text size letter) }
{
    let mut chars: SmallVec<char, 8> = SmallVec::new(alloc);
    for index in 0..size {
        chars.push(character(letter, index))?;
    }
    let mut builder = TextBuilder::new(alloc);
    builder.push_all(chars.as_slice())?;
    Ok(InsertedText::of(builder.finish()?))
}

/// No text, as what a deletion puts in. `Err`: out of memory.
pub(crate) fn no_text(alloc: Global) -> Result<InsertedText, AllocError>
    ensures { IfOk result (λ text. text ≡ []) }
{
    Ok(InsertedText::of(Text::empty(alloc)?))
}
