ghost use Rattle.std.specs.Prelude.{◌≡◌, [], ◌∷◌, ◌++◌, take};
ghost use Rattle.term_keys.specs.Keys.{with_byte};

use std::marker::Model;

/// How many bytes are kept.
const ROOM: usize = 9;

/// The first bytes of a key, at most nine.
#[derive(Drop)]
pub(crate) struct Taken {
    bytes: [u8; ROOM],
    len: usize,
}

impl Model for Taken {
    ghost use Rattle.std.specs.Prelude.{◌≤◌, ℕ, List, take};

    ghost Value = { List ℕ };

    ghost view = { λ t. take t.len t.bytes };

    ghost invariant = { λ t. t.len ≤ 9 };
}

impl Taken {
    pub(crate) fn new() -> Taken
        ensures { result ≡ [] }
    {
        Taken {
            bytes: [0; ROOM],
            len: 0,
        }
    }

    pub(crate) fn as_slice(&self) -> &[u8]
        ensures { result.now ≡ self.now }
    {
        &self.bytes[..self.len]
    }

    /// Adds a byte, unless nine are there.
    pub(crate) fn add(&mut self, byte: u8)
        ensures { self.new ≡ with_byte self.old byte }
    {
        if self.len < ROOM {
            self.bytes[self.len] = byte;
            self.len += 1;
        }
    }
}
