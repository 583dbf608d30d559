ghost use Rattle.std.specs.Prelude.{◌≡◌, length, IfOk};
ghost use Rattle.change_desc.specs.Sections.{spelled, is_empty_text};
ghost use Rattle.change_set.specs.Same.{same_text};

use line_tree::Text;
use std::alloc::AllocError;
use std::marker::Model;

/// A text that a change puts in. Contracts see it as the list of its characters.
#[derive(Drop)]
pub struct InsertedText {
    text: Text,
}

impl Model for InsertedText {
    ghost use Rattle.std.specs.Prelude.{List, ℕ};

    ghost Value = { List ℕ };

    ghost view = { λ t. t.text.characters };
}

impl InsertedText {
    /// A text, to be put in.
    pub fn of(text: Text) -> InsertedText
        ensures { result ≡ text.characters }
    {
        InsertedText { text }
    }

    /// The text itself.
    pub fn text(&self) -> &Text
        ensures { result.now.characters ≡ self.now }
    {
        &self.text
    }

    /// Its length in characters.
    pub fn len(&self) -> u32
        ensures { result ≡ length self.now }
    {
        self.text.len()
    }

    /// Whether it has no characters.
    pub fn is_empty(&self) -> bool
        ensures { result ≡ is_empty_text spelled self.now }
    {
        self.text.len() == 0
    }

    /// Whether both have the same characters.
    pub fn same(&self, other: &InsertedText) -> bool
        ensures { result ≡ same_text self.now other.now }
    {
        self.text.same(&other.text)
    }

    /// The same text once more. `Err`: out of memory.
    pub fn try_copy(&self) -> Result<InsertedText, AllocError>
        ensures { IfOk result (λ copy. copy ≡ self.now) }
    {
        let text = self.text.try_copy()?;
        Ok(InsertedText { text })
    }
}
