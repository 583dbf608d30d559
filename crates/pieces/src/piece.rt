// The pieces of a block.
ghost use lib.Pointwise.{pointwise};
ghost use Rattle.std.specs.Prelude.{◌≡◌, ◌↔◌, ◌≤◌, ◌^◌, [], ◌∷◌, ◌++◌, not, chars, length, IsTrue, OnOk, OnErr};
ghost use Rattle.std.specs.Str.{bytes_eq};
ghost use Rattle.std.specs.String.{string_bytes};
ghost use Rattle.pieces.specs.Filling.{has_piece};
ghost use Rattle.pieces.specs.SamePieces.{look_of, same_piece, same_pieces};

use crate::styles::same_style;
use decoration::Style;
use std::alloc::{AllocError, Global};
use std::marker::Model;

/// A cluster of a block, or the text of a widget or a replacement. Its place counts characters from the block's start.
#[derive(Drop)]
pub struct Piece {
    place: u32,
    text: String,
    style: Style,
    before_cursor: bool,
}

impl Model for Piece {
    ghost use Rattle.std.specs.String.{string_bytes};
    ghost use Rattle.std.specs.Str.{chars};
    ghost use Rattle.pieces.specs.Piece.{PieceView};

    ghost Value = { PieceView };

    ghost view = { λ p. record { place = p.place; text = chars (string_bytes p.text); style = p.style; before_cursor = p.before_cursor } };
}

impl Piece {
    /// A piece; `before_cursor` tells whether a cursor at its place stands after it.
    pub(crate) fn new(place: u32, text: String, style: Style, before_cursor: bool) -> Piece
        ensures { result ≡ record { place = place; text = chars (string_bytes text); style = style; before_cursor = before_cursor } }
    {
        Piece {
            place,
            text,
            style,
            before_cursor,
        }
    }

    /// Where it stands, in characters from the block's start.
    pub fn place(&self) -> u32
        ensures { result ≡ self.now.place }
    {
        self.place
    }

    /// The text.
    pub fn text(&self) -> &str
        ensures { chars result.now ≡ self.now.text }
    {
        self.text.as_str()
    }

    /// The style of its cells.
    pub fn style(&self) -> Style
        ensures { result ≡ self.now.style }
    {
        self.style
    }

    /// Whether a cursor at its place stands after it: a widget whose side is at most 0.
    pub fn is_before_cursor(&self) -> bool
        ensures { result ≡ self.now.before_cursor }
    {
        self.before_cursor
    }

    /// Whether both pieces show the same.
    pub(crate) fn same(&self, other: &Piece) -> bool
        ensures { result ≡ same_piece self.now other.now }
    {
        same_style(self.style, other.style) && same_text(self.text.as_str(), other.text.as_str())
    }
}

fn same_text(a: &str, b: &str) -> bool
    ensures { result ≡ bytes_eq (chars a.now) (chars b.now) }
{
    a == b
}

/// Pieces of a block in their order, at most 2 ^ 58, with the column in which the first of them begins, and the block's own
/// style.
#[derive(Drop)]
pub struct Pieces {
    style: Style,
    start: u128,
    list: Vec<Piece>,
}

impl Model for Pieces {
    ghost use Rattle.std.specs.Prelude.{◌≤◌, ◌^◌, length};
    ghost use Rattle.pieces.specs.Piece.{PiecesView};

    ghost Value = { PiecesView };

    ghost view = { λ p. record { style = p.style; start = p.start; pieces = p.list.items } };

    ghost invariant = { λ p. (p.start ≤ 2 ^ 126) × (length p.list.items ≤ 2 ^ 58) };
}

impl Pieces {
    /// No pieces, in a block of this style.
    pub fn none(alloc: Global, style: Style) -> Pieces
        ensures { result ≡ record { style = style; start = 0; pieces = [] } }
    {
        Pieces {
            style,
            start: 0,
            list: Vec::new(alloc),
        }
    }

    /// Lets the pieces begin in a column.
    pub(crate) fn start_at(&mut self, column: u128)
        requires { column ≤ 2 ^ 126 }
        ensures { self.new ≡ record self.old { start = column } }
    {
        self.start = column;
    }

    /// Adds a piece after the others. `Err`: out of memory, which 2 ^ 58 pieces count as; the pieces are as before.
    pub(crate) fn push(&mut self, piece: Piece) -> Result<(), AllocError>
        ensures ok { OnOk result (self.new ≡ record self.old { pieces = self.old.pieces ++ piece ∷ [] }) }
        ensures err { OnErr result (self.new ≡ self.old) }
    {
        if self.list.len() >= 1 << 58 {
            return Err(AllocError);
        }
        self.list.push(piece)?;
        Ok(())
    }

    /// The block's own style, which the cells after the text have.
    pub fn style(&self) -> Style
        ensures { result ≡ self.now.style }
    {
        self.style
    }

    /// The column in which the first of them begins, or would begin.
    pub fn start(&self) -> u128
        ensures value { result ≡ self.now.start }
        ensures bound { result ≤ 2 ^ 126 }
    {
        self.start
    }

    /// Whether there are none.
    pub(crate) fn is_empty(&self) -> bool
        ensures { result ≡ not (has_piece self.now.pieces) }
    {
        self.list.is_empty()
    }

    /// The pieces in their order.
    pub fn list(&self) -> &[Piece]
        ensures value { result.now ≡ self.now.pieces }
        ensures few { length result.now ≤ 2 ^ 58 }
    {
        self.list.as_slice()
    }

    /// Whether the pieces show the same from the same column on, and the blocks' own styles are equal. Their places don't count.
    pub fn same(&self, other: &Pieces) -> bool
        ensures value { result ≡ same_pieces self.now other.now }
        ensures look { IsTrue result ↔ (look_of self.now ≡ look_of other.now) }
    {
        are_same(self, other)
    }
}

fn are_same(a: &Pieces, b: &Pieces) -> bool
    ensures { result ≡ same_pieces a.now b.now }
{
    same_style(a.style, b.style)
        && a.start == b.start
        && same_list(a.list.as_slice(), b.list.as_slice())
}

fn same_list(a: &[Piece], b: &[Piece]) -> bool
    ensures { result ≡ pointwise same_piece a.now b.now }
{
    if a.len() != b.len() {
        return false;
    }
    for i in 0..a.len() {
        if !a[i].same(&b[i]) {
            return false;
        }
    }
    true
}
