ghost use Rattle.std.specs.Prelude.{◌≡◌, ◌++◌, ◌+◌, ◌-◌, ◌^◌, ◌<◌, ◌≤◌, [], length, take, drop, IfOk, OnOk, OnErr};
ghost use Rattle.std.specs.List.{concat};
ghost use Rattle.line_tree.specs.Breaks.{count_breaks};
ghost use Rattle.line_tree.specs.Text.{replaced};

use crate::chunk::{CHUNK_LEN, Chunk, push_piece};
use crate::leaf::Leaf;
use crate::piece::{PIECE_LEN, Piece, breaks_in};
use std::alloc::{AllocError, Global};
use std::marker::Model;

/// A leaf that grows at its end. It shares the chunks and the pieces that it is given whole, and copies the rest.
#[derive(Drop)]
pub(crate) struct LeafBuilder {
    chunks: Vec<Chunk>,
    pieces: Vec<Piece>,
    last: Vec<char>,
    len: u32,
    breaks: u32,
}

impl Model for LeafBuilder {
    ghost use Rattle.std.specs.Prelude.{◌++◌, List, ℕ};
    ghost use Rattle.std.specs.List.{concat};
    ghost use Rattle.line_tree.specs.Breaks.{IsCounted};

    ghost Value = { List ℕ };

    ghost view = { λ b. concat b.chunks.items ++ (concat b.pieces.items ++ b.last.items) };

    ghost invariant = { λ b. IsCounted (concat b.chunks.items ++ (concat b.pieces.items ++ b.last.items)) b.len b.breaks };
}

/// Makes a piece of the last characters.
fn end_piece(pieces: &mut Vec<Piece>, last: &mut Vec<char>) -> Result<(), AllocError>
    requires { length last.old.items < 2 ^ 32 }
    ensures same { concat pieces.new.items ++ last.new.items ≡ concat pieces.old.items ++ last.old.items }
    ensures ended { OnOk result (last.new.items ≡ []) }
{
    push_piece(pieces, last.as_slice())?;
    last.clear();
    Ok(())
}

/// Adds a chunk of these pieces and then of these characters, if there are some.
fn push_chunk(
    chunks: &mut Vec<Chunk>,
    pieces: &[Piece],
    characters: &[char],
) -> Result<(), AllocError>
    requires { length (concat pieces.now) + length characters.now < 2 ^ 32 }
    ensures value { OnOk result (concat chunks.new.items ≡ concat chunks.old.items ++ (concat pieces.now ++ characters.now)) }
    ensures refused { OnErr result (chunks.new.items ≡ chunks.old.items) }
{
    if pieces.is_empty() && characters.is_empty() {
        return Ok(());
    }
    let chunk = Chunk::of(*chunks.allocator(), pieces, characters)?;
    chunks.push(chunk)?;
    Ok(())
}

/// Makes a chunk of the last pieces and characters.
fn end_chunk(
    chunks: &mut Vec<Chunk>,
    pieces: &mut Vec<Piece>,
    last: &mut Vec<char>,
) -> Result<(), AllocError>
    requires { length (concat pieces.old.items) + length last.old.items < 2 ^ 32 }
    ensures same { concat chunks.new.items ++ (concat pieces.new.items ++ last.new.items) ≡ concat chunks.old.items ++ (concat pieces.old.items ++ last.old.items) }
    ensures no_pieces { OnOk result (pieces.new.items ≡ []) }
    ensures no_last { OnOk result (last.new.items ≡ []) }
{
    push_chunk(chunks, pieces.as_slice(), last.as_slice())?;
    pieces.clear();
    last.clear();
    Ok(())
}

/// Makes a piece of the last characters, and a chunk of the pieces where they are as many as a chunk may have.
fn end_last(
    chunks: &mut Vec<Chunk>,
    pieces: &mut Vec<Piece>,
    last: &mut Vec<char>,
) -> Result<(), AllocError>
    requires { length (concat pieces.old.items) + length last.old.items < 2 ^ 32 }
    ensures same { concat chunks.new.items ++ (concat pieces.new.items ++ last.new.items) ≡ concat chunks.old.items ++ (concat pieces.old.items ++ last.old.items) }
    ensures no_last { OnOk result (last.new.items ≡ []) }
{
    if pieces.len() >= CHUNK_LEN - 1 {
        end_chunk(chunks, pieces, last)
    } else {
        end_piece(pieces, last)
    }
}

/// The chunks once more.
fn copied(chunks: &Vec<Chunk>) -> Result<Vec<Chunk>, AllocError>
    ensures { IfOk result (λ copies. copies.items ≡ chunks.now.items) }
{
    let mut copies = Vec::with_capacity(*chunks.allocator(), chunks.len())?;
    for chunk in chunks {
        copies.push(chunk.try_copy()?)?;
    }
    Ok(copies)
}

impl LeafBuilder {
    pub(crate) fn new(alloc: Global) -> LeafBuilder
        ensures { result ≡ [] }
    {
        LeafBuilder {
            chunks: Vec::new(alloc),
            pieces: Vec::new(alloc),
            last: Vec::new(alloc),
            len: 0,
            breaks: 0,
        }
    }

    /// A builder with room for so many characters, as far as they aren't put into pieces.
    pub(crate) fn with_room(alloc: Global, len: u32) -> Result<LeafBuilder, AllocError>
        ensures { IfOk result (λ b. b ≡ []) }
    {
        let last = Vec::with_capacity(alloc, (len as usize).min(PIECE_LEN))?;
        Ok(LeafBuilder {
            chunks: Vec::new(alloc),
            pieces: Vec::new(alloc),
            last,
            len: 0,
            breaks: 0,
        })
    }

    pub(crate) fn len(&self) -> u32
        ensures { result ≡ length self.now }
    {
        self.len
    }

    pub(crate) fn breaks(&self) -> u32
        ensures { result ≡ count_breaks self.now }
    {
        self.breaks
    }

    /// Adds characters to the last ones.
    fn push_last(&mut self, characters: &[char]) -> Result<(), AllocError>
        requires { length self.old + length characters.now < 2 ^ 32 }
        ensures { OnOk result (self.new ≡ self.old ++ characters.now) }
    {
        let breaks = breaks_in(characters);
        self.last.extend_from_slice(characters)?;
        self.len += characters.len() as u32;
        self.breaks += breaks;
        Ok(())
    }

    /// Ends the last piece where it is full.
    fn make_room(&mut self) -> Result<(), AllocError>
        ensures { self.new ≡ self.old }
    {
        if self.last.len() >= PIECE_LEN {
            end_last(&mut self.chunks, &mut self.pieces, &mut self.last)?;
        }
        Ok(())
    }

    /// Adds characters as a piece of their own.
    fn push_own(&mut self, characters: &[char]) -> Result<(), AllocError>
        requires { length self.old + length characters.now < 2 ^ 32 }
        ensures { OnOk result (self.new ≡ self.old ++ characters.now) }
    {
        let piece = Piece::of(*self.pieces.allocator(), characters)?;
        self.share(&piece)
    }

    /// Adds some of the characters, at least one, and answers how many.
    fn push_some(&mut self, characters: &[char]) -> Result<usize, AllocError>
        requires some { 0 < length characters.now }
        requires fits { length self.old + length characters.now < 2 ^ 32 }
        ensures count { IfOk result (λ n. (0 < n) × (n ≤ length characters.now)) }
        ensures value { IfOk result (λ n. self.new ≡ self.old ++ take n characters.now) }
    {
        self.make_room()?;
        let room = PIECE_LEN.saturating_sub(self.last.len()).max(1);
        let now = &characters[..room.min(characters.len())];
        if now.len() == PIECE_LEN {
            self.push_own(now)?;
        } else {
            self.push_last(now)?;
        }
        Ok(now.len())
    }

    /// Adds characters.
    #[inline(always)]
    pub(crate) fn push_all(&mut self, characters: &[char]) -> Result<(), AllocError>
        requires { length self.old + length characters.now < 2 ^ 32 }
        ensures { OnOk result (self.new ≡ self.old ++ characters.now) }
    {
        let mut rest = characters;
        while !rest.is_empty() {
            let count = self.push_some(rest)?;
            rest = &rest[count..];
        }
        Ok(())
    }

    /// Adds a piece, which is shared.
    fn share(&mut self, piece: &Piece) -> Result<(), AllocError>
        requires { length self.old + length piece.now < 2 ^ 32 }
        ensures { OnOk result (self.new ≡ self.old ++ piece.now) }
    {
        let copy = piece.try_copy()?;
        end_last(&mut self.chunks, &mut self.pieces, &mut self.last)?;
        self.pieces.push(copy)?;
        self.len += piece.len();
        self.breaks += piece.breaks();
        Ok(())
    }

    /// Adds a chunk, which is shared.
    fn share_chunk(&mut self, chunk: &Chunk) -> Result<(), AllocError>
        requires { length self.old + length chunk.now < 2 ^ 32 }
        ensures { OnOk result (self.new ≡ self.old ++ chunk.now) }
    {
        let copy = chunk.try_copy()?;
        end_chunk(&mut self.chunks, &mut self.pieces, &mut self.last)?;
        self.chunks.push(copy)?;
        self.len += chunk.len();
        self.breaks += chunk.breaks();
        Ok(())
    }

    /// Adds some characters of a piece, and shares it where it is added whole and long enough.
    fn push_piece_slice(
        &mut self,
        piece: &Piece,
        from: usize,
        count: usize,
    ) -> Result<(), AllocError>
        requires within { from + count ≤ length piece.now }
        requires fits { length self.old + count < 2 ^ 32 }
        ensures { OnOk result (self.new ≡ self.old ++ take count (drop from piece.now)) }
    {
        if count == 0 {
            return Ok(());
        }
        if count == piece.len() as usize && self.last.len() + count > PIECE_LEN / 2 {
            self.share(piece)
        } else {
            self.push_all(&piece.chars()[from..from + count])
        }
    }

    /// Adds some characters of pieces in a row.
    fn push_pieces(&mut self, pieces: &[Piece], from: usize, count: usize) -> Result<(), AllocError>
        requires within { from + count ≤ length (concat pieces.now) }
        requires fits { length self.old + count < 2 ^ 32 }
        ensures { OnOk result (self.new ≡ self.old ++ take count (drop from (concat pieces.now))) }
    {
        let mut skip = from;
        let mut left = count;
        for piece in pieces {
            if left == 0 {
                return Ok(());
            }
            let len = piece.len() as usize;
            let start = skip.min(len);
            let now = left.min(len - start);
            self.push_piece_slice(piece, start, now)?;
            skip -= start;
            left -= now;
        }
        Ok(())
    }

    /// Whether a chunk of so many pieces stays a chunk of its own: where one ends before it, or where the pieces since then are
    /// too many to go into one with it.
    fn stays_apart(&self, count: usize) -> bool {
        if self.pieces.is_empty() && self.last.is_empty() {
            return true;
        }
        count >= (CHUNK_LEN - 1).saturating_sub(self.pieces.len())
    }

    /// Adds some characters of a chunk, and shares it where it is added whole and stays a chunk of its own.
    fn push_chunk_slice(
        &mut self,
        chunk: &Chunk,
        from: usize,
        count: usize,
    ) -> Result<(), AllocError>
        requires within { from + count ≤ length chunk.now }
        requires fits { length self.old + count < 2 ^ 32 }
        ensures { OnOk result (self.new ≡ self.old ++ take count (drop from chunk.now)) }
    {
        if count == 0 {
            return Ok(());
        }
        let pieces = chunk.pieces();
        if count == chunk.len() as usize && self.stays_apart(pieces.len()) {
            self.share_chunk(chunk)
        } else {
            self.push_pieces(pieces, from, count)
        }
    }

    /// Adds some characters of chunks in a row.
    fn push_chunks(&mut self, chunks: &[Chunk], from: usize, count: usize) -> Result<(), AllocError>
        requires within { from + count ≤ length (concat chunks.now) }
        requires fits { length self.old + count < 2 ^ 32 }
        ensures { OnOk result (self.new ≡ self.old ++ take count (drop from (concat chunks.now))) }
    {
        let mut skip = from;
        let mut left = count;
        for chunk in chunks {
            if left == 0 {
                return Ok(());
            }
            let len = chunk.len() as usize;
            let start = skip.min(len);
            let now = left.min(len - start);
            self.push_chunk_slice(chunk, start, now)?;
            skip -= start;
            left -= now;
        }
        Ok(())
    }

    /// Adds some characters of a leaf.
    pub(crate) fn push_leaf_slice(
        &mut self,
        leaf: &Leaf,
        from: u32,
        count: u32,
    ) -> Result<(), AllocError>
        requires within { from + count ≤ length leaf.now }
        requires fits { length self.old + count < 2 ^ 32 }
        ensures { OnOk result (self.new ≡ self.old ++ take count (drop from leaf.now)) }
    {
        let chunked = leaf.len as usize - leaf.last.len();
        let start = (from as usize).min(chunked);
        let now = (count as usize).min(chunked - start);
        self.push_chunks(leaf.chunks.as_slice(), start, now)?;
        let skip = from as usize - start;
        let rest = count as usize - now;
        self.push_all(&leaf.last.as_slice()[skip..skip + rest])
    }

    /// Adds a leaf.
    pub(crate) fn push_leaf(&mut self, leaf: &Leaf) -> Result<(), AllocError>
        requires { length self.old + length leaf.now < 2 ^ 32 }
        ensures { OnOk result (self.new ≡ self.old ++ leaf.now) }
    {
        self.push_leaf_slice(leaf, 0, leaf.len())
    }

    /// The leaf of what was added so far.
    pub(crate) fn leaf(&self) -> Result<Leaf, AllocError>
        ensures { IfOk result (λ l. l ≡ self.now) }
    {
        let mut chunks = copied(&self.chunks)?;
        push_chunk(&mut chunks, self.pieces.as_slice(), &[])?;
        let last = Vec::from_slice(*self.last.allocator(), self.last.as_slice())?;
        Ok(Leaf {
            chunks,
            last,
            len: self.len,
            breaks: self.breaks,
        })
    }
}

impl LeafBuilder {
    /// The leaf of what was added.
    #[inline(always)]
    pub(crate) fn finish(self) -> Result<Leaf, AllocError>
        ensures { IfOk result (λ l. l ≡ self) }
    {
        let LeafBuilder {
            mut chunks,
            pieces,
            last,
            len,
            breaks,
        } = self;
        push_chunk(&mut chunks, pieces.as_slice(), &[])?;
        Ok(Leaf {
            chunks,
            last,
            len,
            breaks,
        })
    }
}

impl Leaf {
    /// Some of the characters, as a leaf of their own.
    pub(crate) fn slice(&self, from: u32, count: u32) -> Result<Leaf, AllocError>
        requires { from + count ≤ length self.now }
        ensures { IfOk result (λ l. l ≡ take count (drop from self.now)) }
    {
        let mut builder = LeafBuilder::with_room(self.alloc(), count)?;
        builder.push_leaf_slice(self, from, count)?;
        builder.finish()
    }

    /// The leaf with the characters of another in place of those from `from` to `to`.
    pub(crate) fn replaced(&self, from: u32, to: u32, inserted: &Leaf) -> Result<Leaf, AllocError>
        requires order { from ≤ to }
        requires within { to ≤ length self.now }
        requires fits { length self.now - (to - from) + length inserted.now < 2 ^ 32 }
        ensures { IfOk result (λ l. l ≡ replaced from to inserted.now self.now) }
    {
        let len = self.len() - (to - from) + inserted.len();
        if len as usize > PIECE_LEN {
            return self.rebuilt(from, to, inserted);
        }
        match (self.row(), inserted.row()) {
            (Some(row), Some(lines)) => {
                let removed = breaks_in(&row[from as usize..to as usize]);
                let breaks = self.breaks() - removed + inserted.breaks();
                let made = row_replaced(self.alloc(), row, from, to, lines)?;
                Ok(Leaf::of_row(made, breaks))
            }
            _ => self.rebuilt(from, to, inserted),
        }
    }

    /// The same, put together of pieces and chunks.
    fn rebuilt(&self, from: u32, to: u32, inserted: &Leaf) -> Result<Leaf, AllocError>
        requires order { from ≤ to }
        requires within { to ≤ length self.now }
        requires fits { length self.now - (to - from) + length inserted.now < 2 ^ 32 }
        ensures { IfOk result (λ l. l ≡ replaced from to inserted.now self.now) }
    {
        let len = self.len() - (to - from) + inserted.len();
        let mut builder = LeafBuilder::with_room(self.alloc(), len)?;
        builder.push_leaf_slice(self, 0, from)?;
        builder.push_leaf(inserted)?;
        builder.push_leaf_slice(self, to, self.len() - to)?;
        builder.finish()
    }
}

/// A row of characters with others in place of those from `from` to `to`.
fn row_replaced(
    alloc: Global,
    row: &[char],
    from: u32,
    to: u32,
    inserted: &[char],
) -> Result<Vec<char>, AllocError>
    requires order { from ≤ to }
    requires within { to ≤ length row.now }
    requires fits { length row.now - (to - from) + length inserted.now < 2 ^ 32 }
    ensures { IfOk result (λ v. v.items ≡ replaced from to inserted.now row.now) }
{
    let rest = &row[to as usize..];
    let mut made = Vec::with_capacity(alloc, from as usize + inserted.len() + rest.len())?;
    made.extend_from_slice(&row[..from as usize])?;
    made.extend_from_slice(inserted)?;
    made.extend_from_slice(rest)?;
    Ok(made)
}
