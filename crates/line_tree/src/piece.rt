ghost use Rattle.std.specs.Prelude.{◌≡◌, ◌^◌, ◌<◌, ◌≤◌, length, take, slice_index, IfOk};
ghost use Rattle.line_tree.specs.Breaks.{count_breaks, IsBreakAt};

use std::alloc::{AllocError, Global};
use std::marker::Model;
use std::rc::Rc;

/// The greatest number of characters that are put into one piece.
pub(crate) const PIECE_LEN: usize = 2048;

/// Some characters that leaves share. Their numbers stand beside them, so that looking for a place reads no characters.
#[derive(Drop)]
pub(crate) struct Piece {
    characters: Rc<Vec<char>>,
    len: u32,
    breaks: u32,
}

impl Model for Piece {
    ghost use Rattle.std.specs.Prelude.{List, ℕ};
    ghost use Rattle.line_tree.specs.Breaks.{IsCounted};

    ghost Value = { List ℕ };

    ghost view = { λ p. p.characters.value.items };

    ghost invariant = { λ p. IsCounted p.characters.value.items p.len p.breaks };
}

/// A piece or a chunk in a row of them: where it stands, and how many breaks stand before it.
#[derive(Clone, Copy)]
pub(crate) struct Found {
    pub(crate) index: usize,
    pub(crate) from: u32,
    pub(crate) breaks: u32,
}

impl Piece {
    /// A piece of these characters.
    pub(crate) fn of(alloc: Global, characters: &[char]) -> Result<Piece, AllocError>
        requires { length characters.now < 2 ^ 32 }
        ensures { IfOk result (λ p. p ≡ characters.now) }
    {
        let len = characters.len() as u32;
        let breaks = breaks_in(characters);
        let characters = Rc::new(alloc, Vec::from_slice(alloc, characters)?)?;
        Ok(Piece {
            characters,
            len,
            breaks,
        })
    }

    /// The characters.
    pub(crate) fn chars(&self) -> &[char]
        ensures { result.now ≡ self.now }
    {
        self.characters.as_slice()
    }

    /// How many characters it has.
    pub(crate) fn len(&self) -> u32
        ensures { result ≡ length self.now }
    {
        self.len
    }

    /// How many breaks are among them.
    pub(crate) fn breaks(&self) -> u32
        ensures { result ≡ count_breaks self.now }
    {
        self.breaks
    }

    /// The same piece once more, which shares the characters.
    pub(crate) fn try_copy(&self) -> Result<Piece, AllocError>
        ensures { IfOk result (λ p. p ≡ self.now) }
    {
        Ok(Piece {
            characters: self.characters.clone()?,
            len: self.len,
            breaks: self.breaks,
        })
    }
}

/// How many of the characters are breaks.
pub(crate) fn breaks_in(characters: &[char]) -> u32
    requires { length characters.now < 2 ^ 32 }
    ensures { result ≡ count_breaks characters.now }
{
    let mut breaks = 0;
    for c in characters {
        if *c == '\n' {
            breaks += 1;
        }
    }
    breaks
}

/// The place of the break after so many others.
pub(crate) fn break_place_in(characters: &[char], before: u32) -> usize
    requires some { before < count_breaks characters.now }
    requires fits { length characters.now < 2 ^ 32 }
    ensures { IsBreakAt characters.now before result }
{
    let mut seen = 0;
    for (index, character) in characters.iter().enumerate() {
        if *character == '\n' {
            if seen == before {
                return index;
            }
            seen += 1;
        }
    }
    unreachable!()
}
