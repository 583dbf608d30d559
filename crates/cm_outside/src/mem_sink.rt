ghost use Rattle.std.specs.Prelude.{◌≡◌, ◌+◌, ◌-◌, ◌≤◌, ◌<◌, ◌↔◌, [], ℕ, List, Option, Some, length, take, IsErr, IsTrue, IfOk, MatchResult, ◌||◌};
ghost use Rattle.cm_outside.specs.Faults.{HasCause};
ghost use Rattle.cm_outside.specs.Source.{count_of};
ghost use Rattle.cm_outside.specs.Sink.{Appends};
ghost use Rattle.cm_outside.specs.Memory.{MemSinkView, is_failing, is_full_for, count_taken, sink_after, sink_after_failure};

use crate::failed::Failed;
use crate::sink::Sink;
use std::alloc::{AllocError, Global};
use std::marker::Model;

/// A sink that keeps bytes in memory, at most `room` of them. A write takes what fits. The calls of `write` that are
/// named by their number, counted from 0, fail, and so does a write of a piece that isn't empty where no room is left.
/// Its counts of calls and of faults stand still at the greatest 64-bit number.
#[derive(Drop)]
pub struct MemSink {
    held: Vec<u8>,
    room: usize,
    failing: Vec<u64>,
    calls: u64,
    faults: u64,
}

impl Model for MemSink {
    ghost use Rattle.std.specs.Prelude.{◌≤◌, length, vec_capacity};
    ghost use Rattle.cm_outside.specs.Memory.{MemSinkView};

    ghost Value = { MemSinkView };

    ghost view = { λ s. record {
      held = s.held.items;
      room = s.room;
      failing = s.failing.items;
      calls = s.calls;
      faults = s.faults;
    } };

    ghost invariant = { λ s. (length s.held.items ≤ s.room) × (s.room ≤ vec_capacity s.held) };
}

impl MemSink {
    /// An empty sink with room for this many bytes, which is reserved, and whose calls of `write` fail where their
    /// number, counted from 0, is in `failing`. The only error is out of memory.
    pub fn new(alloc: Global, room: usize, failing: Vec<u64>) -> Result<MemSink, AllocError>
        ensures { IfOk result (λ s. s ≡ record {
          held = [];
          room = room;
          failing = failing.items;
          calls = 0;
          faults = 0;
        }) }
    {
        Ok(MemSink {
            held: Vec::with_capacity(alloc, room)?,
            room,
            failing,
            calls: 0,
            faults: 0,
        })
    }

    /// The bytes that it holds.
    pub fn bytes(&self) -> &[u8]
        ensures { result.now ≡ self.now.held }
    {
        self.held.as_slice()
    }
}

impl Sink for MemSink {
    ghost held = { λ s. Some s.held };

    ghost faults = { λ s. s.faults };

    fn write(&mut self, piece: &[u8]) -> Result<usize, Failed>
        ensures bound { count_of result ≤ length piece.now }
        ensures some { 0 < length piece.now → IfOk result (λ n. 0 < n) }
        ensures bytes { Appends self.old.held (Some self.new.held) (take (count_of result) piece.now) }
        ensures cause { HasCause self.old.faults self.new.faults result }
        // The calls that fail are those that are named, and those that find no room.
        ensures fails { IsErr result ↔ IsTrue (is_failing self.old.calls self.old.failing
            || is_full_for self.old (length piece.now)) }
        ensures count { IfOk result (λ n. n ≡ count_taken self.old (length piece.now)) }
        // Each call counts, a failing one among the faults too, and nothing else changes but for the bytes taken.
        ensures after { MatchResult result (λ n. self.new ≡ sink_after self.old (take n piece.now))
            (λ e. self.new ≡ sink_after_failure self.old) }
    {
        let call = self.calls;
        self.calls = self.calls.saturating_add(1);
        let room = self.room - self.held.len();
        let finds_none = room == 0 && !piece.is_empty();
        if finds_none || self.failing.contains(&call) {
            self.faults = self.faults.saturating_add(1);
            return Err(Failed);
        }
        let count = piece.len().min(room);
        self.held
            .extend_from_slice(piece.split_at(count).0)
            .unwrap();
        Ok(count)
    }
}
