ghost use Rattle.std.specs.Prelude.{◌≡◌, ◌++◌, ◌+◌, ◌^◌, ◌<◌, ◌≤◌, length, take, drop, IfOk, OnOk, OnErr};
ghost use Rattle.std.specs.List.{concat};
ghost use Rattle.line_tree.specs.Breaks.{count_breaks, IsBreakAt};
ghost use Rattle.line_tree.specs.Pieces.{HoldsPlace, HoldsBreak};

use crate::piece::{Found, Piece, break_place_in, breaks_in};
use std::alloc::{AllocError, Global};
use std::marker::Model;
use std::rc::Rc;

/// How many pieces a chunk takes, and at most one more: of the characters that stand after them.
pub(crate) const CHUNK_LEN: usize = 64;

/// Some pieces that leaves share. The numbers of their characters stand beside them, so that looking for a place in a
/// long line reads one chunk.
#[derive(Drop)]
pub(crate) struct Chunk {
    pieces: Rc<Vec<Piece>>,
    len: u32,
    breaks: u32,
}

impl Model for Chunk {
    ghost use Rattle.std.specs.Prelude.{List, ℕ};
    ghost use Rattle.std.specs.List.{concat};
    ghost use Rattle.line_tree.specs.Breaks.{IsCounted};

    ghost Value = { List ℕ };

    ghost view = { λ c. concat c.pieces.value.items };

    ghost invariant = { λ c. IsCounted (concat c.pieces.value.items) c.len c.breaks };
}

/// The piece that has the character at a place.
fn piece_at(pieces: &[Piece], pos: u32) -> Found
    requires within { pos < length (concat pieces.now) }
    requires fits { length (concat pieces.now) < 2 ^ 32 }
    ensures { HoldsPlace pieces.now pos result.index result.from result.breaks }
{
    let mut from = 0;
    let mut breaks = 0;
    for (index, piece) in pieces.iter().enumerate() {
        let len = piece.len();
        if pos - from < len {
            return Found {
                index,
                from,
                breaks,
            };
        }
        from += len;
        breaks += piece.breaks();
    }
    unreachable!()
}

/// The piece that has the break after so many others.
fn piece_of_break(pieces: &[Piece], before: u32) -> Found
    requires within { before < count_breaks (concat pieces.now) }
    requires fits { length (concat pieces.now) < 2 ^ 32 }
    ensures { HoldsBreak pieces.now before result.index result.from result.breaks }
{
    let mut from = 0;
    let mut breaks = 0;
    for (index, piece) in pieces.iter().enumerate() {
        if before - breaks < piece.breaks() {
            return Found {
                index,
                from,
                breaks,
            };
        }
        from += piece.len();
        breaks += piece.breaks();
    }
    unreachable!()
}

/// How many breaks stand before a place.
fn breaks_to(pieces: &[Piece], pos: u32) -> u32
    requires within { pos < length (concat pieces.now) }
    requires fits { length (concat pieces.now) < 2 ^ 32 }
    ensures { result ≡ count_breaks (take pos (concat pieces.now)) }
{
    let found = piece_at(pieces, pos);
    let characters = pieces[found.index].chars();
    found.breaks + breaks_in(&characters[..(pos - found.from) as usize])
}

/// The place of the break after so many others.
fn place_of_break(pieces: &[Piece], before: u32) -> u32
    requires within { before < count_breaks (concat pieces.now) }
    requires fits { length (concat pieces.now) < 2 ^ 32 }
    ensures { IsBreakAt (concat pieces.now) before result }
{
    let found = piece_of_break(pieces, before);
    let characters = pieces[found.index].chars();
    found.from + break_place_in(characters, before - found.breaks) as u32
}

/// Some of the characters from a place on: those of its piece.
fn run_in(pieces: &[Piece], pos: u32) -> &[char]
    requires within { pos < length (concat pieces.now) }
    requires fits { length (concat pieces.now) < 2 ^ 32 }
    ensures some { 0 < length result.now }
    ensures run { result.now ≡ take (length result.now) (drop pos (concat pieces.now)) }
    ensures short { pos + length result.now ≤ length (concat pieces.now) }
{
    let found = piece_at(pieces, pos);
    &pieces[found.index].chars()[(pos - found.from) as usize..]
}

/// Adds a piece of these characters, if there are some.
pub(crate) fn push_piece(pieces: &mut Vec<Piece>, characters: &[char]) -> Result<(), AllocError>
    requires { length characters.now < 2 ^ 32 }
    ensures value { OnOk result (concat pieces.new.items ≡ concat pieces.old.items ++ characters.now) }
    ensures refused { OnErr result (pieces.new.items ≡ pieces.old.items) }
{
    if characters.is_empty() {
        return Ok(());
    }
    let piece = Piece::of(*pieces.allocator(), characters)?;
    pieces.push(piece)?;
    Ok(())
}

/// The pieces once more, and then a piece of these characters.
fn with_piece(
    alloc: Global,
    pieces: &[Piece],
    characters: &[char],
) -> Result<Vec<Piece>, AllocError>
    requires { length characters.now < 2 ^ 32 }
    ensures { IfOk result (λ all. concat all.items ≡ concat pieces.now ++ characters.now) }
{
    let mut copies = Vec::with_capacity(alloc, pieces.len() + 1)?;
    for piece in pieces {
        copies.push(piece.try_copy()?)?;
    }
    push_piece(&mut copies, characters)?;
    Ok(copies)
}

/// How many characters the pieces have.
fn len_of(pieces: &[Piece]) -> u32
    requires { length (concat pieces.now) < 2 ^ 32 }
    ensures { result ≡ length (concat pieces.now) }
{
    let mut len = 0;
    for piece in pieces {
        len += piece.len();
    }
    len
}

/// How many breaks are among the characters of the pieces.
fn breaks_of(pieces: &[Piece]) -> u32
    requires { length (concat pieces.now) < 2 ^ 32 }
    ensures { result ≡ count_breaks (concat pieces.now) }
{
    let mut breaks = 0;
    for piece in pieces {
        breaks += piece.breaks();
    }
    breaks
}

impl Chunk {
    /// A chunk of these pieces, which it shares, and then of a piece of these characters.
    pub(crate) fn of(
        alloc: Global,
        pieces: &[Piece],
        characters: &[char],
    ) -> Result<Chunk, AllocError>
        requires { length (concat pieces.now) + length characters.now < 2 ^ 32 }
        ensures { IfOk result (λ c. c ≡ concat pieces.now ++ characters.now) }
    {
        let all = with_piece(alloc, pieces, characters)?;
        let len = len_of(all.as_slice());
        let breaks = breaks_of(all.as_slice());
        let pieces = Rc::new(alloc, all)?;
        Ok(Chunk {
            pieces,
            len,
            breaks,
        })
    }

    /// The pieces.
    pub(crate) fn pieces(&self) -> &[Piece]
        ensures { concat result.now ≡ self.now }
    {
        self.pieces.as_slice()
    }

    /// The same chunk once more, which shares the pieces.
    pub(crate) fn try_copy(&self) -> Result<Chunk, AllocError>
        ensures { IfOk result (λ c. c ≡ self.now) }
    {
        Ok(Chunk {
            pieces: self.pieces.clone()?,
            len: self.len,
            breaks: self.breaks,
        })
    }

    /// How many characters it has.
    pub(crate) fn len(&self) -> u32
        ensures { result ≡ length self.now }
    {
        self.len
    }

    /// How many breaks are among them.
    pub(crate) fn breaks(&self) -> u32
        ensures { result ≡ count_breaks self.now }
    {
        self.breaks
    }

    /// How many breaks stand before a place.
    pub(crate) fn breaks_before(&self, pos: u32) -> u32
        requires { pos ≤ length self.now }
        ensures { result ≡ count_breaks (take pos self.now) }
    {
        if pos == self.len {
            return self.breaks;
        }
        breaks_to(self.pieces(), pos)
    }

    /// The place of the break after so many others.
    pub(crate) fn break_place(&self, before: u32) -> u32
        requires { before < count_breaks self.now }
        ensures { IsBreakAt self.now before result }
    {
        // The proof takes from this line that the length fits u32.
        let _fits = self.len();
        place_of_break(self.pieces(), before)
    }

    /// Some of the characters from a place on: those of its piece.
    pub(crate) fn run_at(&self, pos: u32) -> &[char]
        requires { pos < length self.now }
        ensures some { 0 < length result.now }
        ensures run { result.now ≡ take (length result.now) (drop pos self.now) }
        ensures short { pos + length result.now ≤ length self.now }
    {
        // The proof takes from this line that the length fits u32.
        let _fits = self.len();
        run_in(self.pieces(), pos)
    }
}
