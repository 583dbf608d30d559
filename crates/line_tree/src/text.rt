ghost use Rattle.std.specs.Prelude.{◌≡◌, ◌++◌, ◌+◌, ◌-◌, ◌^◌, ◌≤◌, ◌<◌, ◌↔◌, [], length, take, drop, IfOk, IfSome, OnOk, IsTrue, true, false, string_bytes, encode_utf8_all};
ghost use Rattle.line_tree.specs.Text.{cut, cut_after, slice, replaced, HasNoReturn, BeginsWithReturn};
ghost use Rattle.line_tree.specs.Lines.{lines_of, IsLineOf};
ghost use Rattle.line_tree.specs.Parts.{ArePartsOf};
ghost use Rattle.line_tree.specs.Breaks.{count_breaks, IsBreakAt};
ghost use Rattle.line_tree.specs.Places.{AddsTexts};
ghost use Rattle.line_tree.specs.LineEnds.{StartsLine, EndsLine};

use crate::builder::TextBuilder;
use crate::glue::{after_parts, append_glued, before_parts, replace_lines};
use crate::leaf::Leaf;
use crate::line::Line;
use crate::parts::{part_at, part_of_break};
use crate::tree::{add_copies, add_level, make_leaf, one_text};
use std::alloc::{AllocError, Global};
use std::marker::Model;
use std::rc::Rc;

/// The greatest length of a document, in characters.
pub const MAX_LEN: u32 = 16_777_216;

/// A text. A position counts characters, from 0 to the length, and a line break is one character.
#[cycle(text)]
#[derive(Drop)]
pub struct Text {
    pub(crate) node: Rc<Node>,
}

/// What a text is kept as: some lines, or other texts with a break between each two.
#[cycle(text)]
#[derive(Drop)]
pub(crate) enum Node {
    Leaf(Leaf),
    Branch(Branch),
}

/// Texts of one height, and how many characters and breaks there are in all.
#[cycle(text)]
#[derive(Drop)]
pub(crate) struct Branch {
    pub(crate) parts: Vec<Text>,
    pub(crate) len: u32,
    pub(crate) breaks: u32,
    pub(crate) height: u32,
}

impl Model for Text {
    ghost use Rattle.line_tree.specs.Text.{TextView};

    ghost Value = { TextView };

    ghost use Rattle.line_tree.specs.Tree.{view_of, IsSound};

    ghost view = { λ t. view_of t.node.value };

    ghost invariant = { λ t. IsSound t.node.value };

    ghost size = { λ v. v.height };

    ghost use Rattle.line_tree.specs.TreeFalls.{deep_le-height};
    ghost use Rattle.std.proofs.Common.{arith};

    ghost size_decreases = { λ t h. Prim.omega (arith, deep_le-height t.node.value h) };
}

/// How long the text of these characters is, in characters: CRLF, CR and LF count one each.
pub fn cut_len(characters: &[char]) -> usize
    ensures value { result ≡ length (cut characters.now) }
    ensures bound { result ≤ length characters.now }
{
    let mut len = 0;
    let mut after_return = false;
    for c in characters {
        if !(*c == '\n' && after_return) {
            len += 1;
        }
        after_return = *c == '\r';
    }
    len
}

/// How many characters stand before the first CR, or in all.
fn until_return(characters: &[char]) -> usize
    ensures within { result ≤ length characters.now }
    ensures run { HasNoReturn (take result characters.now) }
    ensures after { BeginsWithReturn (drop result characters.now) }
{
    for (index, c) in characters.iter().enumerate() {
        if *c == '\r' {
            return index;
        }
    }
    characters.len()
}

/// The characters after a CR, without the LF that belongs to it.
fn after_return(characters: &[char]) -> &[char]
    ensures value { cut_after false result.now ≡ cut_after true characters.now }
    ensures shorter { length result.now ≤ length characters.now }
{
    match characters.split_first() {
        Some(('\n', rest)) => rest,
        _ => characters,
    }
}

/// Adds the characters in UTF-8.
fn push_characters(text: &mut String, characters: &[char]) -> Result<(), AllocError>
    ensures { OnOk result (string_bytes text.new ≡ string_bytes text.old ++ encode_utf8_all characters.now) }
{
    for c in characters {
        text.push(*c)?;
    }
    Ok(())
}

impl Text {
    /// The text of some characters, cut into lines at CRLF, CR and LF (Text.of). `Err`: out of memory.
    pub fn of(alloc: Global, characters: &[char]) -> Result<Text, AllocError>
        requires { length (cut characters.now) < 2 ^ 32 }
        ensures { IfOk result (λ t. t.characters ≡ cut characters.now) }
    {
        let mut builder = TextBuilder::new(alloc);
        let mut rest = characters;
        loop {
            let (run, after) = rest.split_at(until_return(rest));
            builder.push_all(run)?;
            match after.split_first() {
                None => return builder.finish(),
                Some((_, next)) => {
                    builder.push('\n')?;
                    rest = after_return(next);
                }
            }
        }
    }

    /// The text without characters, which has one line (Text.empty). `Err`: out of memory.
    pub fn empty(alloc: Global) -> Result<Text, AllocError>
        ensures { IfOk result (λ t. t.characters ≡ []) }
    {
        TextBuilder::new(alloc).finish()
    }

    pub(crate) fn alloc(&self) -> Global {
        match &*self.node {
            Node::Leaf(leaf) => leaf.alloc(),
            Node::Branch(branch) => *branch.parts.allocator(),
        }
    }

    /// The length in characters (Text.length).
    pub fn len(&self) -> u32
        ensures { result ≡ length self.now.characters }
    {
        match &*self.node {
            Node::Leaf(leaf) => leaf.len(),
            Node::Branch(branch) => branch.len,
        }
    }

    /// How many breaks there are.
    pub(crate) fn breaks(&self) -> u32
        ensures value { result ≡ count_breaks self.now.characters }
        ensures tall { 2 ^ self.now.height ≤ result + 1 }
    {
        match &*self.node {
            Node::Leaf(leaf) => leaf.breaks(),
            Node::Branch(branch) => branch.breaks,
        }
    }

    /// How many lines there are, at least one (Text.lines).
    pub fn lines(&self) -> u64
        ensures value { result ≡ length (lines_of self.now.characters) }
        ensures some { 0 < result }
    {
        u64::from(self.breaks()) + 1
    }

    /// How many levels of parts stand above the leaves: none of a text without parts. A text of height h has at least
    /// 2 ^ h lines.
    pub fn height(&self) -> u32
        ensures value { result ≡ self.now.height }
        ensures tall { 2 ^ result ≤ length (lines_of self.now.characters) }
    {
        // The proof takes from this line that the count of breaks fits u32.
        let _breaks = self.breaks();
        self.levels()
    }

    pub(crate) fn levels(&self) -> u32
        ensures { result ≡ self.now.height }
    {
        match &*self.node {
            Node::Leaf(_) => 0,
            Node::Branch(branch) => branch.height,
        }
    }

    /// The parts that the text is kept as, 2 to 32 of them, each lower by one, with a break between each two; of a text
    /// of at most 64 lines there may be none (Text.children).
    pub fn parts(&self) -> &[Text]
        ensures { ArePartsOf self.now result.now }
    {
        match &*self.node {
            Node::Leaf(_) => &[],
            Node::Branch(branch) => branch.parts.as_slice(),
        }
    }

    /// How many breaks stand before a place.
    fn breaks_before(&self, pos: u32) -> u32
        requires { pos ≤ length self.now.characters }
        ensures { result ≡ count_breaks (take pos self.now.characters) }
    {
        match &*self.node {
            Node::Leaf(leaf) => leaf.breaks_before(pos),
            Node::Branch(branch) => {
                let found = part_at(branch.parts.as_slice(), pos);
                let part = &branch.parts[found.index];
                found.breaks + part.breaks_before(pos - found.from)
            }
        }
    }

    /// The place of the break after so many others.
    fn break_place(&self, before: u32) -> u32
        requires { before < count_breaks self.now.characters }
        ensures { IsBreakAt self.now.characters before result }
    {
        match &*self.node {
            Node::Leaf(leaf) => leaf.break_place(before),
            Node::Branch(branch) => {
                let found = part_of_break(branch.parts.as_slice(), before);
                let part = &branch.parts[found.index];
                let inside = before - found.breaks;
                if inside == part.breaks() {
                    found.from + part.len()
                } else {
                    found.from + part.break_place(inside)
                }
            }
        }
    }

    /// Where the line after so many breaks starts.
    fn line_start(&self, breaks: u32) -> u32
        requires { breaks ≤ count_breaks self.now.characters }
        ensures { StartsLine self.now.characters breaks result }
    {
        if breaks == 0 {
            0
        } else {
            // The proof takes from this line that the length fits u32.
            let _fits = self.len();
            self.break_place(breaks - 1) + 1
        }
    }

    /// Where the line after so many breaks ends.
    fn line_end(&self, breaks: u32) -> u32
        requires { breaks ≤ count_breaks self.now.characters }
        ensures { EndsLine self.now.characters breaks result }
    {
        if breaks == self.breaks() {
            self.len()
        } else {
            self.break_place(breaks)
        }
    }

    /// The line with this number, which counts from 1 (Text.line).
    pub fn line(&self, number: u64) -> Line
        requires first { 0 < number }
        requires last { number ≤ length (lines_of self.now.characters) }
        ensures number { result.number ≡ number }
        ensures line { IsLineOf self.now.characters result }
        ensures order { result.from ≤ result.to }
        ensures within { result.to ≤ length self.now.characters }
    {
        // The proof takes from this line that the count of breaks fits u32.
        let _breaks = self.breaks();
        let breaks = (number - 1) as u32;
        Line {
            number,
            from: self.line_start(breaks),
            to: self.line_end(breaks),
        }
    }

    /// The line that a place stands in; the place after a line's last character is in that line (Text.lineAt).
    #[inline(always)]
    pub fn line_at(&self, pos: u32) -> Line
        requires { pos ≤ length self.now.characters }
        ensures line { IsLineOf self.now.characters result }
        ensures starts { result.from ≤ pos }
        ensures ends { pos ≤ result.to }
        ensures within { result.to ≤ length self.now.characters }
    {
        let breaks = self.breaks_before(pos);
        Line {
            number: u64::from(breaks) + 1,
            from: self.line_start(breaks),
            to: self.line_end(breaks),
        }
    }

    /// Some of the characters from a place on, at least one: up to where the array ends in which the text keeps them, or the one
    /// break between two parts of its tree. Takes no memory.
    pub fn run_at(&self, pos: u32) -> &[char]
        requires { pos < length self.now.characters }
        ensures some { 0 < length result.now }
        ensures run { result.now ≡ take (length result.now) (drop pos self.now.characters) }
        ensures short { pos + length result.now ≤ length self.now.characters }
    {
        match &*self.node {
            Node::Leaf(leaf) => leaf.run_at(pos),
            Node::Branch(branch) => {
                let found = part_at(branch.parts.as_slice(), pos);
                let part = &branch.parts[found.index];
                let place = pos - found.from;
                if place == part.len() {
                    &['\n']
                } else {
                    part.run_at(place)
                }
            }
        }
    }

    /// The characters, with LF between lines. `Err`: out of memory.
    pub fn chars(&self) -> Result<Vec<char>, AllocError>
        ensures { IfOk result (λ v. v.items ≡ self.now.characters) }
    {
        let len = self.len();
        let mut characters = Vec::with_capacity(self.alloc(), len as usize)?;
        let mut pos = 0;
        while pos < len {
            let run = self.run_at(pos);
            characters.extend_from_slice(run)?;
            pos += run.len() as u32;
        }
        Ok(characters)
    }

    /// The text in UTF-8, with LF between lines. `Err`: out of memory.
    pub fn text(&self) -> Result<String, AllocError>
        ensures { IfOk result (λ s. string_bytes s ≡ encode_utf8_all self.now.characters) }
    {
        self.string_at(0, self.len())
    }

    /// So many characters from a place on, in UTF-8, with LF between lines.
    #[inline(always)]
    pub(crate) fn string_at(&self, from: u32, count: u32) -> Result<String, AllocError>
        requires { from + count ≤ length self.now.characters }
        ensures { IfOk result (λ s. string_bytes s ≡ encode_utf8_all (take count (drop from self.now.characters))) }
    {
        // The proof takes from this line that the length of the text fits u32.
        let _fits = self.len();
        let mut string = String::with_capacity(self.alloc(), count as usize)?;
        let mut taken = 0;
        while taken < count {
            let run = self.run_at(from + taken);
            let now = run.len().min((count - taken) as usize);
            push_characters(&mut string, &run[..now])?;
            taken += now as u32;
        }
        Ok(string)
    }

    /// Whether both have the same characters (Text.eq).
    pub fn same(&self, other: &Text) -> bool
        ensures { IsTrue result ↔ (self.now.characters ≡ other.now.characters) }
    {
        let len = self.len();
        if other.len() != len {
            return false;
        }
        let mut pos = 0;
        while pos < len {
            let mine = self.run_at(pos);
            let theirs = other.run_at(pos);
            let count = mine.len().min(theirs.len());
            if mine[..count] != theirs[..count] {
                return false;
            }
            pos += count as u32;
        }
        true
    }

    /// The characters before a place.
    pub(crate) fn prefix(&self, pos: u32) -> Result<Text, AllocError>
        requires { pos ≤ length self.now.characters }
        ensures { IfOk result (λ t. t.characters ≡ take pos self.now.characters) }
    {
        match &*self.node {
            Node::Leaf(leaf) => make_leaf(leaf.alloc(), leaf.slice(0, pos)?),
            Node::Branch(branch) => {
                let found = part_at(branch.parts.as_slice(), pos);
                let part = branch.parts[found.index].prefix(pos - found.from)?;
                after_parts(
                    branch.parts.as_slice(),
                    found.index,
                    branch.height - 1,
                    part,
                )
            }
        }
    }

    /// The characters from a place on.
    pub(crate) fn suffix(&self, pos: u32) -> Result<Text, AllocError>
        requires { pos ≤ length self.now.characters }
        ensures { IfOk result (λ t. t.characters ≡ drop pos self.now.characters) }
    {
        match &*self.node {
            Node::Leaf(leaf) => make_leaf(leaf.alloc(), leaf.slice(pos, leaf.len() - pos)?),
            Node::Branch(branch) => {
                let found = part_at(branch.parts.as_slice(), pos);
                let part = branch.parts[found.index].suffix(pos - found.from)?;
                before_parts(
                    branch.parts.as_slice(),
                    found.index + 1,
                    branch.height - 1,
                    part,
                )
            }
        }
    }

    /// The text with another in place of the characters from `from` to `to` (Text.replace). `Err`: out of memory.
    pub fn replace(&self, from: u32, to: u32, inserted: &Text) -> Result<Text, AllocError>
        requires order { from ≤ to }
        requires within { to ≤ length self.now.characters }
        requires fits { length self.now.characters - (to - from) + length inserted.now.characters < 2 ^ 32 }
        ensures { IfOk result (λ t. t.characters ≡ replaced from to inserted.now.characters self.now.characters) }
    {
        let Node::Leaf(lines) = &*inserted.node else {
            return self.replace_parts(from, to, inserted);
        };
        match self.replace_in_leaf(from, to, lines)? {
            Some(text) => Ok(text),
            None => self.replace_parts(from, to, inserted),
        }
    }

    /// The same of inserted lines, if the characters that they replace stand in one leaf.
    fn replace_in_leaf(&self, from: u32, to: u32, lines: &Leaf) -> Result<Option<Text>, AllocError>
        requires order { from ≤ to }
        requires within { to ≤ length self.now.characters }
        requires few { count_breaks lines.now < 64 }
        requires fits { length self.now.characters - (to - from) + length lines.now < 2 ^ 32 }
        ensures { IfOk result (λ r. IfSome r (λ t. t.characters ≡ replaced from to lines.now self.now.characters)) }
    {
        let alloc = self.alloc();
        let mut texts = Vec::with_capacity(alloc, 2)?;
        if self.add_replaced(from, to, lines, &mut texts)? {
            Ok(Some(one_text(alloc, texts, self.levels())?))
        } else {
            Ok(None)
        }
    }

    /// Adds one or two texts, as high as this one, that are this text with some lines in place of the characters from
    /// `from` to `to`, if these stand in one leaf. Only the nodes above that leaf are made anew. Whether they do.
    fn add_replaced(
        &self,
        from: u32,
        to: u32,
        lines: &Leaf,
        out: &mut Vec<Text>,
    ) -> Result<bool, AllocError>
        requires order { from ≤ to }
        requires within { to ≤ length self.now.characters }
        requires few { count_breaks lines.now < 64 }
        requires fits { length self.now.characters - (to - from) + length lines.now < 2 ^ 32 }
        ensures { IfOk result (λ done. IsTrue done → AddsTexts self.now.height (replaced from to lines.now self.now.characters) out.old.items out.new.items) }
    {
        match &*self.node {
            Node::Leaf(leaf) => {
                replace_lines(leaf, from, to, lines, out)?;
                Ok(true)
            }
            Node::Branch(branch) => {
                let parts = branch.parts.as_slice();
                let found = part_at(parts, from);
                let part = &parts[found.index];
                if to - found.from > part.len() {
                    return Ok(false);
                }
                let mut texts = Vec::with_capacity(self.alloc(), parts.len() + 1)?;
                add_copies(&parts[..found.index], &mut texts)?;
                if !part.add_replaced(from - found.from, to - found.from, lines, &mut texts)? {
                    return Ok(false);
                }
                add_copies(&parts[found.index + 1..], &mut texts)?;
                add_level(self.alloc(), texts, branch.height - 1, out)?;
                Ok(true)
            }
        }
    }

    /// The same of characters of several leaves, or of an inserted text that has parts.
    fn replace_parts(&self, from: u32, to: u32, inserted: &Text) -> Result<Text, AllocError>
        requires order { from ≤ to }
        requires within { to ≤ length self.now.characters }
        requires fits { length self.now.characters - (to - from) + length inserted.now.characters < 2 ^ 32 }
        ensures { IfOk result (λ t. t.characters ≡ replaced from to inserted.now.characters self.now.characters) }
    {
        let prefix = self.prefix(from)?;
        let suffix = self.suffix(to)?;
        prefix.append(inserted)?.append(&suffix)
    }

    /// The characters of this text, then those of the other (Text.append). `Err`: out of memory.
    pub fn append(&self, other: &Text) -> Result<Text, AllocError>
        requires { length self.now.characters + length other.now.characters < 2 ^ 32 }
        ensures { IfOk result (λ t. t.characters ≡ self.now.characters ++ other.now.characters) }
    {
        append_glued(self, other)
    }

    /// The characters from one place to another as a text of their own (Text.slice). `Err`: out of memory.
    pub fn slice(&self, from: u32, to: u32) -> Result<Text, AllocError>
        requires order { from ≤ to }
        requires within { to ≤ length self.now.characters }
        ensures { IfOk result (λ t. t.characters ≡ slice from to self.now.characters) }
    {
        if from == 0 {
            self.prefix(to)
        } else if to == self.len() {
            self.suffix(from)
        } else {
            self.prefix(to)?.suffix(from)
        }
    }

    /// The same text once more, which shares all its parts. `Err`: out of memory.
    pub fn try_copy(&self) -> Result<Text, AllocError>
        ensures { IfOk result (λ t. t ≡ self.now) }
    {
        Ok(Text {
            node: self.node.clone()?,
        })
    }
}
