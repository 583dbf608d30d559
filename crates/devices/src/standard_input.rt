ghost use Rattle.std.specs.Prelude.{Option, List, ℕ, None};

use cm_outside::{Failed, Source};
use std::io::Read;

/// Standard input, or any reader. It tells nothing of what it has left. Each failed read counts as a fault, and so does
/// one before which the count of the bytes given could pass its greatest value.
#[derive(Drop)]
pub struct StandardInput<R: Read> {
    inner: R,
    given: u64,
    asked: u64,
    faults: u64,
}

impl<R: Read> StandardInput<R> {
    /// A source over this reader, which gave no byte yet and did not fail yet.
    pub fn new(inner: R) -> StandardInput<R> {
        StandardInput {
            inner,
            given: 0,
            asked: 0,
            faults: 0,
        }
    }
}

impl<R: Read> Source for StandardInput<R> {
    ghost left = { λ s. None };

    ghost given = { λ s. s.given };

    ghost asked = { λ s. s.asked };

    ghost faults = { λ s. s.faults };

    fn read(&mut self, room: &mut [u8]) -> Result<usize, Failed> {
        self.asked = self.given;
        if self.given <= u64::MAX - room.len() as u64 {
            if let Ok(count) = self.inner.read(room) {
                self.given += count as u64;
                return Ok(count);
            }
        }
        self.faults = self.faults.saturating_add(1);
        Err(Failed)
    }
}
