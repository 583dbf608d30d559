ghost use Rattle.std.specs.Prelude.{◌≡◌, ◌++◌, ◌+◌, ◌^◌, ◌≤◌, ◌<◌, length, take, drop, IfOk, OnOk, string_bytes, encode_utf8_all};

use crate::builder::TextBuilder;
use crate::text::Text;
use std::alloc::AllocError;
use std::marker::Model;

/// So many characters or fewer are copied where they are put into a text, and not shared.
const COPIED: u32 = 1024;

/// Puts characters of the text into the builder.
fn copy_characters(
    text: &Text,
    from: u32,
    count: u32,
    builder: &mut TextBuilder,
) -> Result<(), AllocError>
    requires within { from + count ≤ length text.now.characters }
    requires fits { length builder.old + count < 2 ^ 32 }
    ensures { OnOk result (builder.new ≡ builder.old ++ take count (drop from text.now.characters)) }
{
    // The proof takes from this line that the length of the text fits u32.
    let _fits = text.len();
    let mut pos = from;
    let mut left = count;
    while left > 0 {
        let run = text.run_at(pos);
        let now = run.len().min(left as usize);
        builder.push_all(&run[..now])?;
        pos += now as u32;
        left -= now as u32;
    }
    Ok(())
}

/// Goes over the characters of a text once, from its start to its end. Contracts see it as the list of the characters
/// that are left.
#[derive(Drop)]
pub struct TextCursor<'a> {
    text: &'a Text,
    pos: u32,
    len: u32,
}

impl<'a> Model for TextCursor<'a> {
    ghost use Rattle.std.specs.Prelude.{List, ℕ, drop, length, ◌≡◌, ◌≤◌};

    ghost Value = { List ℕ };

    ghost view = { λ c. drop c.pos c.text.now.characters };

    ghost invariant = { λ c. (c.len ≡ length c.text.now.characters) × (c.pos ≤ c.len) };
}

impl<'a> TextCursor<'a> {
    /// A cursor at the start of a text.
    pub fn new(text: &'a Text) -> TextCursor<'a>
        ensures { result ≡ text.now.characters }
    {
        TextCursor {
            text,
            pos: 0,
            len: text.len(),
        }
    }

    /// How many characters are left.
    pub fn len(&self) -> u32
        ensures { result ≡ length self.now }
    {
        self.len - self.pos
    }

    /// Passes over the next characters.
    pub fn skip(&mut self, count: u32)
        requires { count ≤ length self.old }
        ensures { self.new ≡ drop count self.old }
    {
        self.pos += count;
    }

    /// The next characters as a text, which shares all where they are the whole text. `Err`: out of memory.
    pub fn next_text(&mut self, count: u32) -> Result<Text, AllocError>
        requires { count ≤ length self.old }
        ensures text { IfOk result (λ t. t.characters ≡ take count self.old) }
        ensures left { OnOk result (self.new ≡ drop count self.old) }
    {
        if count == self.len {
            let text = self.text.try_copy()?;
            self.pos += count;
            return Ok(text);
        }
        let mut builder = TextBuilder::new(self.text.alloc());
        self.copy_to(count, &mut builder)?;
        builder.finish()
    }

    /// The next characters in UTF-8, with LF between lines. `Err`: out of memory.
    pub fn next_string(&mut self, count: u32) -> Result<String, AllocError>
        requires { count ≤ length self.old }
        ensures string { IfOk result (λ s. string_bytes s ≡ encode_utf8_all (take count self.old)) }
        ensures left { OnOk result (self.new ≡ drop count self.old) }
    {
        let string = self.text.string_at(self.pos, count)?;
        self.pos += count;
        Ok(string)
    }

    /// Puts the next characters into a text that is made. `Err`: out of memory.
    #[inline(always)]
    pub fn copy_to(&mut self, count: u32, builder: &mut TextBuilder) -> Result<(), AllocError>
        requires within { count ≤ length self.old }
        requires fits { length builder.old + count < 2 ^ 32 }
        ensures left { OnOk result (self.new ≡ drop count self.old) }
        ensures copied { OnOk result (builder.new ≡ builder.old ++ take count self.old) }
    {
        if count <= COPIED {
            copy_characters(self.text, self.pos, count, builder)?;
        } else {
            builder.push_slice(self.text, self.pos, count)?;
        }
        self.pos += count;
        Ok(())
    }
}
