ghost use Rattle.std.specs.Prelude.{◌≡◌, IfOk};
ghost use Rattle.line_tree.specs.Text.{cut};

use change_set::InsertedText;
use cm_plain::Str;
use line_tree::{Text, cut_len};
use std::alloc::{AllocError, Global};

/// More characters than a text can have.
const TOO_MANY: usize = 4_294_967_296;

/// The text of some characters, cut at its line breaks. A line has too few bytes for a text of `TOO_MANY` characters,
/// for which there is no memory.
pub fn cut_text(alloc: Global, characters: &Str) -> Result<Text, AllocError>
    ensures { IfOk result (λ t. t.characters ≡ cut characters.now) }
{
    if cut_len(characters.chars()) >= TOO_MANY {
        return Err(AllocError);
    }
    Text::of(alloc, characters.chars())
}

/// The same as a text that a change puts in.
pub(crate) fn inserted_text(alloc: Global, characters: &Str) -> Result<InsertedText, AllocError>
    ensures { IfOk result (λ t. t ≡ cut characters.now) }
{
    Ok(InsertedText::of(cut_text(alloc, characters)?))
}
