ghost use Rattle.std.specs.Prelude.{◌≡◌, ◌<◌, ◌+◌, ◌^◌, MatchOption};
ghost use Rattle.change_desc.specs.Sections.{old_size};
ghost use Rattle.change_set.specs.OneReplace.{IsOnly};

use crate::inserted_text::InsertedText;
use change_desc::Section;
use line_tree::Text;

/// The only range that a set replaces, in characters of the old document, and the text that stands for it.
#[derive(Drop)]
pub(crate) struct OnlyReplace<'a> {
    pub(crate) from: u32,
    pub(crate) to: u32,
    pub(crate) text: &'a Text,
}

impl<'a> OnlyReplace<'a> {
    /// So many characters from a place on replaced by a text.
    fn at(from: u32, count: u32, inserted: &'a InsertedText) -> OnlyReplace<'a>
        requires { from + count < 2 ^ 32 }
        ensures from { result.from ≡ from }
        ensures to { result.to ≡ from + count }
        ensures text { result.text.now.characters ≡ inserted.now }
    {
        OnlyReplace {
            from,
            to: from + count,
            text: inserted.text(),
        }
    }
}

/// The only range that some sections replace, unless they replace none or more.
#[inline(always)]
pub(crate) fn only_replace(sections: &[Section<InsertedText>]) -> Option<OnlyReplace<'_>>
    requires { old_size sections.now < 2 ^ 32 }
    ensures { MatchOption result (Unit {0}) (λ only. IsOnly sections.now only.from only.to only.text.now.characters) }
{
    match sections {
        [Section::Replace(count, text)] => Some(OnlyReplace::at(0, *count, text)),
        [Section::Keep(from), Section::Replace(count, text)] => {
            Some(OnlyReplace::at(*from, *count, text))
        }
        [Section::Replace(count, text), Section::Keep(_)] => Some(OnlyReplace::at(0, *count, text)),
        [
            Section::Keep(from),
            Section::Replace(count, text),
            Section::Keep(_),
        ] => { Some(OnlyReplace::at(*from, *count, text)) }
        _ => None,
    }
}
