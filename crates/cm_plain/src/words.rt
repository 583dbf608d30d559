ghost use Rattle.std.specs.Prelude.{nat_eq, ◌≡◌};
ghost use Rattle.std.specs.Cmp.Lexicographic.{pointwise};
ghost use Rattle.std.specs.List.{list_all};
ghost use Rattle.cm_plain.specs.Form.{has_word};

use crate::text::Str;
use std::marker::Model;

/// Some texts, which contracts see as the list of them.
#[derive(Debug, Drop)]
pub struct Words {
    words: Vec<Str>,
}

impl Model for Words {
    ghost use Rattle.std.specs.Prelude.{ℕ, List};

    ghost Value = { List (List ℕ) };

    ghost view = { λ w. w.words.items };
}

impl Words {
    /// These texts, in order.
    pub fn new(words: Vec<Str>) -> Words
        ensures { result ≡ words.items }
    {
        Words { words }
    }

    /// Whether the text is one of them.
    pub fn has(&self, text: &Str) -> bool
        ensures { result ≡ has_word self.now text.now }
    {
        for word in &self.words {
            if is_word(word, text) {
                return true;
            }
        }
        false
    }

    /// Whether each of them is one of the others.
    pub fn are_among(&self, more: &Words) -> bool
        ensures { result ≡ list_all (has_word more.now) self.now }
    {
        for word in &self.words {
            if !more.has(word) {
                return false;
            }
        }
        true
    }
}

/// Whether both have the same characters.
fn is_word(word: &Str, text: &Str) -> bool
    ensures { result ≡ pointwise nat_eq word.now text.now }
{
    word.chars() == text.chars()
}
