ghost use Rattle.std.specs.Prelude.{Option, List, ℕ, None};

use cm_outside::{Failed, Sink};
use std::io::Write;

/// Standard output, or any writer. It tells nothing of what it holds. Each failed write counts as a fault, and so does
/// one that takes no byte of a piece that isn't empty.
#[derive(Drop)]
pub struct StandardOutput<W: Write> {
    inner: W,
    faults: u64,
}

impl<W: Write> StandardOutput<W> {
    /// A sink over this writer, which did not fail yet.
    pub fn new(inner: W) -> StandardOutput<W> {
        StandardOutput { inner, faults: 0 }
    }
}

impl<W: Write> Sink for StandardOutput<W> {
    ghost held = { λ s. None };

    ghost faults = { λ s. s.faults };

    fn write(&mut self, piece: &[u8]) -> Result<usize, Failed> {
        match self.inner.write(piece) {
            Ok(count) if count > 0 || piece.is_empty() => Ok(count),
            _ => {
                self.faults = self.faults.saturating_add(1);
                Err(Failed)
            }
        }
    }
}
