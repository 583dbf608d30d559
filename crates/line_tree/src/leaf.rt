ghost use Rattle.std.specs.Prelude.{◌≡◌, ◌+◌, ◌^◌, ◌<◌, ◌≤◌, length, take, drop, IfOk, IfSome};
ghost use Rattle.std.specs.List.{concat};
ghost use Rattle.line_tree.specs.Breaks.{count_breaks, IsBreakAt};
ghost use Rattle.line_tree.specs.Pieces.{HoldsPlace, HoldsBreak};

use crate::chunk::Chunk;
use crate::piece::{Found, break_place_in, breaks_in};
use std::alloc::Global;
use std::marker::Model;

/// The characters of some lines: in chunks of pieces that other leaves may share, and then a row of its own, so that a short
/// text takes no chunk. An edit in a long line copies a piece, the list of one chunk, the list of chunks and that row.
#[derive(Drop)]
pub(crate) struct Leaf {
    pub(crate) chunks: Vec<Chunk>,
    pub(crate) last: Vec<char>,
    pub(crate) len: u32,
    pub(crate) breaks: u32,
}

impl Model for Leaf {
    ghost use Rattle.std.specs.Prelude.{◌++◌, List, ℕ};
    ghost use Rattle.std.specs.List.{concat};
    ghost use Rattle.line_tree.specs.Breaks.{IsCounted};

    ghost Value = { List ℕ };

    ghost view = { λ l. concat l.chunks.items ++ l.last.items };

    ghost invariant = { λ l. IsCounted (concat l.chunks.items ++ l.last.items) l.len l.breaks };
}

/// The chunk that has the character at a place.
fn chunk_at(chunks: &[Chunk], pos: u32) -> Found
    requires within { pos < length (concat chunks.now) }
    requires fits { length (concat chunks.now) < 2 ^ 32 }
    ensures { HoldsPlace chunks.now pos result.index result.from result.breaks }
{
    let mut from = 0;
    let mut breaks = 0;
    for (index, chunk) in chunks.iter().enumerate() {
        let len = chunk.len();
        if pos - from < len {
            return Found {
                index,
                from,
                breaks,
            };
        }
        from += len;
        breaks += chunk.breaks();
    }
    unreachable!()
}

/// The chunk that has the break after so many others.
fn chunk_of_break(chunks: &[Chunk], before: u32) -> Found
    requires within { before < count_breaks (concat chunks.now) }
    requires fits { length (concat chunks.now) < 2 ^ 32 }
    ensures { HoldsBreak chunks.now before result.index result.from result.breaks }
{
    let mut from = 0;
    let mut breaks = 0;
    for (index, chunk) in chunks.iter().enumerate() {
        if before - breaks < chunk.breaks() {
            return Found {
                index,
                from,
                breaks,
            };
        }
        from += chunk.len();
        breaks += chunk.breaks();
    }
    unreachable!()
}

/// How many breaks are among the characters of the chunks.
fn breaks_of(chunks: &[Chunk]) -> u32
    requires { length (concat chunks.now) < 2 ^ 32 }
    ensures { result ≡ count_breaks (concat chunks.now) }
{
    let mut breaks = 0;
    for chunk in chunks {
        breaks += chunk.breaks();
    }
    breaks
}

/// How many breaks stand before a place.
fn breaks_to(chunks: &[Chunk], pos: u32) -> u32
    requires within { pos < length (concat chunks.now) }
    requires fits { length (concat chunks.now) < 2 ^ 32 }
    ensures { result ≡ count_breaks (take pos (concat chunks.now)) }
{
    let found = chunk_at(chunks, pos);
    found.breaks + chunks[found.index].breaks_before(pos - found.from)
}

/// The place of the break after so many others.
fn place_of_break(chunks: &[Chunk], before: u32) -> u32
    requires within { before < count_breaks (concat chunks.now) }
    requires fits { length (concat chunks.now) < 2 ^ 32 }
    ensures { IsBreakAt (concat chunks.now) before result }
{
    let found = chunk_of_break(chunks, before);
    found.from + chunks[found.index].break_place(before - found.breaks)
}

/// Some of the characters from a place on: those of a piece.
fn run_in(chunks: &[Chunk], pos: u32) -> &[char]
    requires within { pos < length (concat chunks.now) }
    requires fits { length (concat chunks.now) < 2 ^ 32 }
    ensures some { 0 < length result.now }
    ensures run { result.now ≡ take (length result.now) (drop pos (concat chunks.now)) }
    ensures short { pos + length result.now ≤ length (concat chunks.now) }
{
    let found = chunk_at(chunks, pos);
    chunks[found.index].run_at(pos - found.from)
}

impl Leaf {
    /// The leaf of a row of characters with so many breaks.
    pub(crate) fn of_row(row: Vec<char>, breaks: u32) -> Leaf
        requires breaks { breaks ≡ count_breaks row.items }
        requires fits { length row.items < 2 ^ 32 }
        ensures { result ≡ row.items }
    {
        Leaf {
            chunks: Vec::new(*row.allocator()),
            len: row.len() as u32,
            last: row,
            breaks,
        }
    }

    /// The characters, if they stand in one row.
    pub(crate) fn row(&self) -> Option<&[char]>
        ensures { IfSome result (λ row. row.now ≡ self.now) }
    {
        if self.chunks.is_empty() {
            Some(self.last.as_slice())
        } else {
            None
        }
    }

    pub(crate) fn alloc(&self) -> Global {
        *self.chunks.allocator()
    }

    pub(crate) fn len(&self) -> u32
        ensures { result ≡ length self.now }
    {
        self.len
    }

    pub(crate) fn breaks(&self) -> u32
        ensures { result ≡ count_breaks self.now }
    {
        self.breaks
    }

    /// How many breaks stand before a place.
    pub(crate) fn breaks_before(&self, pos: u32) -> u32
        requires { pos ≤ length self.now }
        ensures { result ≡ count_breaks (take pos self.now) }
    {
        let chunks = self.chunks.as_slice();
        let start = self.len - self.last.len() as u32;
        if pos < start {
            return breaks_to(chunks, pos);
        }
        // The breaks on the shorter side are counted.
        let (before, after) = self.last.as_slice().split_at((pos - start) as usize);
        if before.len() <= after.len() {
            breaks_of(chunks) + breaks_in(before)
        } else {
            self.breaks - breaks_in(after)
        }
    }

    /// The place of the break after so many others.
    pub(crate) fn break_place(&self, before: u32) -> u32
        requires { before < count_breaks self.now }
        ensures { IsBreakAt self.now before result }
    {
        let chunks = self.chunks.as_slice();
        let first = breaks_of(chunks);
        if before < first {
            return place_of_break(chunks, before);
        }
        let start = self.len - self.last.len() as u32;
        start + break_place_in(self.last.as_slice(), before - first) as u32
    }

    /// Some of the characters from a place on: those of a piece, or of the last row.
    pub(crate) fn run_at(&self, pos: u32) -> &[char]
        requires { pos < length self.now }
        ensures some { 0 < length result.now }
        ensures run { result.now ≡ take (length result.now) (drop pos self.now) }
        ensures short { pos + length result.now ≤ length self.now }
    {
        let start = self.len - self.last.len() as u32;
        if pos < start {
            return run_in(self.chunks.as_slice(), pos);
        }
        &self.last.as_slice()[(pos - start) as usize..]
    }
}
