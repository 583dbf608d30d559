ghost use Rattle.std.specs.Prelude.{◌≡◌, ◌+◌, ◌≤◌, ◌<◌, ◌↔◌, ℕ, List, Option, Some, length, IsErr, IfOk, IfSome, IsTrue, MatchResult};
ghost use Rattle.cm_outside.specs.Faults.{HasCause};
ghost use Rattle.cm_outside.specs.Source.{Gives, count_of};
ghost use Rattle.cm_outside.specs.Memory.{MemSourceView, is_failing, count_given, source_after, source_after_failure};

use crate::failed::Failed;
use crate::piece::Piece;
use crate::source::Source;
use std::marker::Model;

/// A source over bytes in memory. It gives at most a piece of them at once, and the calls of `read` that are named by
/// their number, counted from 0, fail. Its counts of calls and of faults stand still at the greatest 64-bit number.
#[derive(Drop)]
pub struct MemSource {
    bytes: Vec<u8>,
    at: usize,
    asked: usize,
    piece: Piece,
    failing: Vec<u64>,
    calls: u64,
    faults: u64,
}

impl Model for MemSource {
    ghost use Rattle.std.specs.Prelude.{◌≤◌, drop, length};
    ghost use Rattle.cm_outside.specs.Memory.{MemSourceView};

    ghost Value = { MemSourceView };

    ghost view = { λ s. record {
      left = drop s.at s.bytes.items;
      given = s.at;
      asked = s.asked;
      piece = s.piece;
      failing = s.failing.items;
      calls = s.calls;
      faults = s.faults;
    } };

    ghost invariant = { λ s. s.at ≤ length s.bytes.items };
}

impl MemSource {
    /// A source that gives these bytes, at most a piece of them at once, and whose calls of `read` fail where their
    /// number, counted from 0, is in `failing`.
    pub fn new(bytes: Vec<u8>, piece: Piece, failing: Vec<u64>) -> MemSource
        ensures { result ≡ record {
          left = bytes.items;
          given = 0;
          asked = 0;
          piece = piece;
          failing = failing.items;
          calls = 0;
          faults = 0;
        } }
    {
        MemSource {
            bytes,
            at: 0,
            asked: 0,
            piece,
            failing,
            calls: 0,
            faults: 0,
        }
    }
}

impl Source for MemSource {
    ghost left = { λ s. Some s.left };

    ghost given = { λ s. s.given };

    ghost asked = { λ s. s.asked };

    ghost faults = { λ s. s.faults };

    fn read(&mut self, room: &mut [u8]) -> Result<usize, Failed>
        ensures bound { count_of result ≤ length room.new }
        ensures given { self.new.given ≡ self.old.given + count_of result }
        ensures asked { self.new.asked ≡ self.old.given }
        ensures bytes { Gives self.old.left (Some self.new.left) room.new result }
        ensures cause { HasCause self.old.faults self.new.faults result }
        // The calls that fail are those that are named, and the others give as much as there is room for.
        ensures fails { IsErr result ↔ IsTrue (is_failing self.old.calls self.old.failing) }
        ensures count { IfOk result (λ n. n ≡ count_given self.old (length room.old)) }
        // Each call counts, a failing one among the faults too, and nothing else changes but for the bytes given.
        ensures after { MatchResult result (λ n. self.new ≡ source_after self.old n)
            (λ e. self.new ≡ source_after_failure self.old) }
    {
        let call = self.calls;
        self.asked = self.at;
        self.calls = self.calls.saturating_add(1);
        if self.failing.contains(&call) {
            self.faults = self.faults.saturating_add(1);
            return Err(Failed);
        }
        let (_, rest) = self.bytes.split_at(self.at);
        let count = rest.len().min(self.piece.bytes()).min(room.len());
        let (given, _) = rest.split_at(count);
        let (prefix, _) = room.split_at_mut(count);
        prefix.copy_from_slice(given);
        self.at += count;
        Ok(count)
    }
}
