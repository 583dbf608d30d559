ghost use Rattle.std.specs.Prelude.{◌≡◌, ◌^◌, ◌<◌, ◌↔◌, [], length, IfOk, IsTrue, string_bytes, encode_utf8_all};
ghost use Rattle.std.specs.Str.{chars};
ghost use Rattle.cm_plain.specs.UserEvents.{ends_or_stops, is_below};

use std::alloc::{AllocError, Global};
use std::marker::Model;

/// A text as its list of characters (Unicode scalar values).
#[derive(Debug, Drop)]
pub struct Str {
    characters: Vec<char>,
}

impl Model for Str {
    ghost use Rattle.std.specs.Prelude.{ℕ, List};

    ghost Value = { List ℕ };

    ghost view = { λ s. s.characters.items };
}

impl Str {
    /// The text of these characters. `Err`: out of memory.
    pub fn of(alloc: Global, characters: &[char]) -> Result<Str, AllocError>
        ensures { IfOk result (λ s. s ≡ characters.now) }
    {
        let characters = Vec::from_slice(alloc, characters)?;
        Ok(Str { characters })
    }

    /// The text without characters.
    pub fn empty(alloc: Global) -> Str
        ensures { result ≡ [] }
    {
        Str {
            characters: Vec::new(alloc),
        }
    }

    /// The text of a string, character by character. `Err`: out of memory.
    pub fn of_text(alloc: Global, text: &str) -> Result<Str, AllocError>
        ensures { IfOk result (λ s. s ≡ chars text.now) }
    {
        let characters = text.chars().collect(alloc)?;
        Ok(Str { characters })
    }

    /// The characters.
    pub fn chars(&self) -> &[char]
        ensures value { result.now ≡ self.now }
        ensures small { length self.now < 2 ^ 63 }
    {
        self.characters.as_slice()
    }

    /// How many characters there are.
    pub fn len(&self) -> usize
        ensures { result ≡ length self.now }
    {
        self.characters.len()
    }

    /// Whether there are none.
    pub fn is_empty(&self) -> bool
        ensures { IsTrue result ↔ (self.now ≡ []) }
    {
        self.characters.is_empty()
    }

    /// Whether both have the same characters.
    pub fn same(&self, other: &Str) -> bool
        ensures { IsTrue result ↔ (self.now ≡ other.now) }
    {
        self.characters.as_slice() == other.characters.as_slice()
    }

    /// Whether a user event is another one or below it: `select.word` is also a `select` (Reference Manual,
    /// Transaction.isUserEvent).
    pub fn is_below(&self, of: &[char]) -> bool
        ensures { result ≡ is_below self.now of.now }
    {
        let event = self.characters.as_slice();
        event.starts_with(of) && ends_or_stops(&event[of.len()..])
    }

    /// The same text once more. `Err`: out of memory.
    pub fn try_copy(&self) -> Result<Str, AllocError>
        ensures { IfOk result (λ s. s ≡ self.now) }
    {
        Str::of(*self.characters.allocator(), self.characters.as_slice())
    }

    /// The text in UTF-8. `Err`: out of memory.
    pub fn text(&self) -> Result<String, AllocError>
        ensures { IfOk result (λ s. string_bytes s ≡ encode_utf8_all self.now) }
    {
        let mut text = String::new(*self.characters.allocator());
        for c in self.characters.iter() {
            text.push(*c)?;
        }
        Ok(text)
    }
}

/// Whether nothing follows, or a full stop.
fn ends_or_stops(rest: &[char]) -> bool
    ensures { result ≡ ends_or_stops rest.now }
{
    match rest.first() {
        None => true,
        Some(first) => *first == '.',
    }
}
