ghost use Rattle.std.specs.Prelude.{◌≡◌, ◌++◌, ◌+◌, ◌^◌, ◌≤◌, ◌<◌, [], ◌∷◌, length, take, drop, OnOk, IfOk};
ghost use Rattle.line_tree.specs.Text.{line_feed, cut};
ghost use Rattle.line_tree.specs.Breaks.{count_breaks, HasNoBreak, BeginsWithBreak};
ghost use Rattle.line_tree.specs.Building.{characters_of};

use crate::glue::append_lines;
use crate::leaf::Leaf;
use crate::leaf_builder::LeafBuilder;
use crate::text::{Node, Text};
use crate::tree::make_leaf;
use std::alloc::{AllocError, Global};
use std::marker::Model;

/// The text that stands before the last lines of a builder, if there is one.
#[derive(Drop)]
enum Done {
    Nothing,
    /// A text, in whose last line more follows.
    Open(Text),
    /// A text after which a new line begins.
    Ended(Text),
}

/// Makes a text of characters and texts that are put in one after the other. Contracts see it as the list of the
/// characters so far.
#[derive(Drop)]
pub struct TextBuilder {
    done: Done,
    last: LeafBuilder,
    len: u32,
    alloc: Global,
}

impl Model for TextBuilder {
    ghost use Rattle.std.specs.Prelude.{◌≡◌, ◌++◌, ◌<◌, ◌^◌, List, ℕ, length};
    ghost use Rattle.line_tree.specs.Breaks.{count_breaks};
    ghost use Rattle.line_tree.specs.Building.{characters_of};

    ghost Value = { List ℕ };

    ghost view = { λ b. characters_of b.done ++ b.last };

    ghost invariant = { λ b. (b.len ≡ length (characters_of b.done ++ b.last)) × (b.len < 2 ^ 32) × (count_breaks b.last < 64) };
}

/// How many characters stand before the first LF, or in all.
fn line_len(characters: &[char]) -> usize
    ensures within { result ≤ length characters.now }
    ensures in_line { HasNoBreak (take result characters.now) }
    ensures after { BeginsWithBreak (drop result characters.now) }
{
    for (index, c) in characters.iter().enumerate() {
        if *c == '\n' {
            return index;
        }
    }
    characters.len()
}

/// The text that was done and then the leaf.
#[inline(always)]
fn with_leaf(alloc: Global, done: &Done, leaf: Leaf) -> Result<Text, AllocError>
    requires few { count_breaks leaf < 64 }
    requires fits { length (characters_of done.now) + length leaf < 2 ^ 32 }
    ensures { IfOk result (λ t. t.characters ≡ characters_of done.now ++ leaf) }
{
    match done {
        Done::Nothing => make_leaf(alloc, leaf),
        Done::Open(text) => {
            if leaf.len() == 0 {
                text.try_copy()
            } else {
                text.append(&make_leaf(alloc, leaf)?)
            }
        }
        Done::Ended(text) => append_lines(text, &make_leaf(alloc, leaf)?),
    }
}

/// Leaves nothing of what was put in.
fn forget(done: &mut Done, last: &mut LeafBuilder, len: &mut u32, alloc: Global)
    ensures done { characters_of done.new ≡ [] }
    ensures last { last.new ≡ [] }
    ensures len { len.new ≡ 0 }
{
    *done = Done::Nothing;
    *last = LeafBuilder::new(alloc);
    *len = 0;
}

impl TextBuilder {
    /// A builder of the text without characters.
    pub fn new(alloc: Global) -> TextBuilder
        ensures { result ≡ [] }
    {
        TextBuilder {
            done: Done::Nothing,
            last: LeafBuilder::new(alloc),
            len: 0,
            alloc,
        }
    }

    /// A builder of the text without characters, with room for so many characters, or for 2,048 where that is less. `Err`: out of
    /// memory.
    pub fn with_capacity(alloc: Global, capacity: u32) -> Result<TextBuilder, AllocError>
        ensures { IfOk result (λ builder. builder ≡ []) }
    {
        let last = LeafBuilder::with_room(alloc, capacity)?;
        Ok(TextBuilder {
            done: Done::Nothing,
            last,
            len: 0,
            alloc,
        })
    }

    /// How many characters were put in.
    pub fn len(&self) -> u32
        ensures { result ≡ length self.now }
    {
        self.len
    }

    /// The text so far.
    fn text(&self) -> Result<Text, AllocError>
        ensures { IfOk result (λ t. t.characters ≡ self.now) }
    {
        with_leaf(self.alloc, &self.done, self.last.leaf()?)
    }

    /// Adds characters of the last line.
    fn push_run(&mut self, run: &[char]) -> Result<(), AllocError>
        requires in_line { HasNoBreak run.now }
        requires fits { length self.old + length run.now < 2 ^ 32 }
        ensures { OnOk result (self.new ≡ self.old ++ run.now) }
    {
        match self.last.push_all(run) {
            Ok(()) => {
                self.len += run.len() as u32;
                Ok(())
            }
            Err(error) => {
                forget(&mut self.done, &mut self.last, &mut self.len, self.alloc);
                Err(error)
            }
        }
    }

    /// Ends the line, where the last lines are fewer than a leaf may have.
    fn push_line_end(&mut self) -> Result<(), AllocError>
        requires room { length self.old + 1 < 2 ^ 32 }
        ensures { OnOk result (self.new ≡ self.old ++ line_feed ∷ []) }
    {
        if self.last.breaks() >= 63 {
            return self.push_leaf_end();
        }
        match self.last.push_all(&['\n']) {
            Ok(()) => {
                self.len += 1;
                Ok(())
            }
            Err(error) => {
                forget(&mut self.done, &mut self.last, &mut self.len, self.alloc);
                Err(error)
            }
        }
    }

    /// Ends the line and the leaf.
    fn push_leaf_end(&mut self) -> Result<(), AllocError>
        requires { length self.old + 1 < 2 ^ 32 }
        ensures { OnOk result (self.new ≡ self.old ++ line_feed ∷ []) }
    {
        let text = self.text()?;
        self.done = Done::Ended(text);
        self.last = LeafBuilder::new(self.alloc);
        self.len += 1;
        Ok(())
    }

    /// Adds a character, which ends the line if it is LF. `Err`: out of memory.
    pub fn push(&mut self, c: char) -> Result<(), AllocError>
        requires { length self.old + 1 < 2 ^ 32 }
        ensures { OnOk result (self.new ≡ self.old ++ c ∷ []) }
    {
        if c == '\n' {
            self.push_line_end()
        } else {
            self.push_run(&[c])
        }
    }

    /// Adds characters, with LF where a line ends. `Err`: out of memory.
    pub fn push_all(&mut self, chars: &[char]) -> Result<(), AllocError>
        requires { length self.old + length chars.now < 2 ^ 32 }
        ensures { OnOk result (self.new ≡ self.old ++ chars.now) }
    {
        let mut rest = chars;
        loop {
            let (line, after) = rest.split_at(line_len(rest));
            self.push_run(line)?;
            match after.split_first() {
                None => return Ok(()),
                Some((_, next)) => {
                    self.push_line_end()?;
                    rest = next;
                }
            }
        }
    }

    /// Adds some characters of a leaf, to the last lines if there is room for them.
    fn push_lines(&mut self, leaf: &Leaf, from: u32, count: u32) -> Result<(), AllocError>
        requires few { count_breaks leaf.now < 64 }
        requires within { from + count ≤ length leaf.now }
        requires fits { length self.old + count < 2 ^ 32 }
        ensures { OnOk result (self.new ≡ self.old ++ take count (drop from leaf.now)) }
    {
        // The proof takes from this line that the length of the leaf fits u32.
        let _fits = leaf.len();
        let breaks = leaf.breaks_before(from + count) - leaf.breaks_before(from);
        if self.last.breaks() + breaks > 63 {
            return self.push_tree(&make_leaf(self.alloc, leaf.slice(from, count)?)?);
        }
        match self.last.push_leaf_slice(leaf, from, count) {
            Ok(()) => {
                self.len += count;
                Ok(())
            }
            Err(error) => {
                forget(&mut self.done, &mut self.last, &mut self.len, self.alloc);
                Err(error)
            }
        }
    }

    /// The text so far, and then another.
    fn followed_by(&self, text: &Text) -> Result<Text, AllocError>
        requires { length self.now + length text.now.characters < 2 ^ 32 }
        ensures { IfOk result (λ t. t.characters ≡ self.now ++ text.now.characters) }
    {
        if self.len == 0 {
            text.try_copy()
        } else {
            self.text()?.append(text)
        }
    }

    /// Adds a text after those that were put in, as a tree.
    fn push_tree(&mut self, text: &Text) -> Result<(), AllocError>
        requires { length self.old + length text.now.characters < 2 ^ 32 }
        ensures { OnOk result (self.new ≡ self.old ++ text.now.characters) }
    {
        let all = self.followed_by(text)?;
        self.len = all.len();
        self.done = Done::Open(all);
        self.last = LeafBuilder::new(self.alloc);
        Ok(())
    }

    /// Adds the characters of a text, and shares its parts where it has several. `Err`: out of memory.
    pub fn push_text(&mut self, text: &Text) -> Result<(), AllocError>
        requires { length self.old + length text.now.characters < 2 ^ 32 }
        ensures { OnOk result (self.new ≡ self.old ++ text.now.characters) }
    {
        match &*text.node {
            Node::Leaf(leaf) => self.push_lines(leaf, 0, leaf.len()),
            Node::Branch(_) => self.push_tree(text),
        }
    }

    /// Adds some characters of a text, and shares its parts.
    pub(crate) fn push_slice(
        &mut self,
        text: &Text,
        from: u32,
        count: u32,
    ) -> Result<(), AllocError>
        requires within { from + count ≤ length text.now.characters }
        requires fits { length self.old + count < 2 ^ 32 }
        ensures { OnOk result (self.new ≡ self.old ++ take count (drop from text.now.characters)) }
    {
        match &*text.node {
            Node::Leaf(leaf) => self.push_lines(leaf, from, count),
            Node::Branch(_) => {
                // The proof takes from this line that the length of the text fits u32.
                let _fits = text.len();
                self.push_tree(&text.slice(from, from + count)?)
            }
        }
    }

    /// The text of the characters that were put in. `Err`: out of memory.
    #[inline(always)]
    pub fn finish(self) -> Result<Text, AllocError>
        ensures { IfOk result (λ t. t.characters ≡ self) }
    {
        let TextBuilder {
            done,
            last,
            len: _,
            alloc,
        } = self;
        with_leaf(alloc, &done, last.finish()?)
    }
}
