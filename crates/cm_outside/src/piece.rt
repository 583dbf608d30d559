use std::marker::Model;

/// How many bytes a source or a sink in memory gives or takes at once, at most: at least one.
#[derive(Drop)]
pub struct Piece {
    bytes: usize,
}

impl Model for Piece {
    ghost use Rattle.std.specs.Prelude.{ℕ, ◌<◌};

    ghost Value = { ℕ };

    ghost view = { λ p. p.bytes };

    ghost invariant = { λ p. 0 < p.bytes };
}

impl Piece {
    ghost use Rattle.std.specs.Prelude.{◌≡◌, ◌<◌};
    ghost use Rattle.std.specs.Option.{SomeIff};

    /// Pieces of at most this many bytes, or none where that is 0.
    pub fn of(bytes: usize) -> Option<Piece>
        ensures { SomeIff result (0 < bytes) bytes }
    {
        if bytes == 0 {
            None
        } else {
            Some(Piece { bytes })
        }
    }

    /// Pieces of one byte.
    pub fn byte() -> Piece
        ensures { result ≡ 1 }
    {
        Piece { bytes: 1 }
    }

    /// Pieces as large as there is room for.
    pub fn whole() -> Piece
        ensures { result ≡ usize.MAX }
    {
        Piece { bytes: usize::MAX }
    }

    /// How many bytes that is.
    pub(crate) fn bytes(&self) -> usize
        ensures value { result ≡ self.now }
        ensures some { 0 < result }
    {
        self.bytes
    }
}
