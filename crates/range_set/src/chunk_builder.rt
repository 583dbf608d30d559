ghost use Rattle.std.specs.Prelude.{IfOk, IsTrue, [], ◌++◌, ◌+◌, ◌≡◌, ◌≤◌, ◌<◌, length, map};
ghost use Rattle.range_set.specs.Order.{AllForward};
ghost use Rattle.change_desc.specs.Meeting.{BeginAfter, EndsAtOrAfter};
ghost use Rattle.range_set.specs.PrivateChunks.{FitCarriedChunks, AreChunks, AreChunksShared, Ascend, IsChunk, content, flat, move, shift};
ghost use Rattle.range_set.specs.PrivateBuilders.{IsBuilder, built};

use crate::chunk::{FEW_RANGES, MAX_RANGES, MAX_SHARED_LEN, Placed, is_long};
use crate::parts::{part_len, trim};
use crate::range_value::RangeValue;
use crate::ranged::Ranged;
use change_desc::{ChangedRange, first_meets};
use std::alloc::{AllocError, Global};

/// Chunks that come in order, to which more are put.
#[derive(Drop)]
pub(crate) struct ChunkBuilder<T> {
    pub(crate) done: Vec<Placed<T>>,
}

impl<T: RangeValue> ChunkBuilder<T> {
    /// A builder without ranges.
    pub(crate) fn new(alloc: Global) -> ChunkBuilder<T>
        ensures builder { IsBuilder T.rules result }
        ensures ranges { built result ≡ [] }
    {
        ChunkBuilder {
            done: Vec::new(alloc),
        }
    }

    /// Whether there are no ranges.
    pub(crate) fn is_empty(&self) -> bool
        ensures { IsTrue result → built self.now ≡ [] }
    {
        self.done.is_empty()
    }

    /// Cuts ranges that come in order into chunks, and puts these after the others. None of them is longer than `longest`, in characters.
    /// No contract speaks of that: it only decides where chunks are cut. `Err`: out of memory.
    pub(crate) fn put_all(
        &mut self,
        mut ranges: Vec<Ranged<T>>,
        longest: u32,
    ) -> Result<(), AllocError>
        requires builder { IsBuilder T.rules self.old }
        requires order { Ascend 0 (built self.old ++ ranges.items) }
        requires forward { AllForward ranges.items }
        ensures builder { IfOk result (λ _. IsBuilder T.rules self.new) }
        ensures ranges { IfOk result (λ _. built self.new ≡ built self.old ++ ranges.items) }
    {
        let part = chunk_len(&ranges, longest);
        if part < ranges.len() {
            let rest = ranges.split_off(part)?;
            self.put_all(ranges, longest)?;
            return self.put_all(rest, longest);
        }
        self.put_chunk(ranges)
    }

    /// Puts ranges in order after the others, as one chunk. It keeps their list. `Err`: out of memory.
    fn put_chunk(&mut self, mut ranges: Vec<Ranged<T>>) -> Result<(), AllocError>
        requires builder { IsBuilder T.rules self.old }
        requires few { length ranges.items ≤ 128 }
        requires order { Ascend 0 ranges.items }
        requires forward { AllForward ranges.items }
        ensures builder { IfOk result (λ _. IsBuilder T.rules self.new) }
        ensures ranges { IfOk result (λ _. built self.new ≡ built self.old ++ ranges.items) }
    {
        let Some(first) = ranges.first() else {
            return Ok(());
        };
        let start = first.from;
        trim(&mut ranges);
        self.done.push(Placed::of(start, ranges)?)?;
        Ok(())
    }

    /// Puts a chunk after the ranges. `Err`: out of memory.
    pub(crate) fn put(&mut self, placed: Placed<T>) -> Result<(), AllocError>
        requires builder { IsBuilder T.rules self.old }
        requires chunk { IsChunk T.rules placed.start (content placed) }
        requires some { 1 ≤ length (content placed).ranges }
        ensures builder { IfOk result (λ _. IsBuilder T.rules self.new) }
        ensures ranges { IfOk result (λ _. built self.new ≡ built self.old ++ map (shift placed.start) (content placed).ranges) }
    {
        self.done.push(placed)?;
        Ok(())
    }

    /// Puts a chunk after the ranges, at a place of its own, and shares it. `Err`: out of memory.
    #[inline(always)]
    pub(crate) fn share(&mut self, start: u32, placed: &Placed<T>) -> Result<(), AllocError>
        requires builder { IsBuilder T.rules self.old }
        requires chunk { IsChunk T.rules start (content placed.now) }
        requires some { 1 ≤ length (content placed.now).ranges }
        ensures builder { IfOk result (λ _. IsBuilder T.rules self.new) }
        ensures ranges { IfOk result (λ _. built self.new ≡ built self.old ++ map (shift start) (content placed.now).ranges) }
    {
        self.done.push(placed.at(start)?)?;
        Ok(())
    }

    /// Shares the first of some chunks, which count from the place `base`, after the ranges, each moved as far as the place `from` is
    /// where it goes to `to`, and gives the others: from the first on that ends at or after the start of a replaced range, or in which
    /// an empty range has an end side less than its start side. `changed` are the replaced ranges from the first on that doesn't end
    /// before `from`. `Err`: out of memory.
    pub(crate) fn share_carried<'a>(
        &mut self,
        chunks: &'a [Placed<T>],
        base: u32,
        from: u32,
        to: u32,
        changed: &[ChangedRange],
    ) -> Result<&'a [Placed<T>], AllocError>
        requires builder { IsBuilder T.rules self.old }
        requires chunks { AreChunks T.rules (map (move base) chunks.now) }
        requires ascend { Ascend from (flat (map (move base) chunks.now)) }
        requires fits { FitCarriedChunks from to changed.now (map (move base) chunks.now) }
        requires order { BeginAfter 0 changed.now }
        requires first { EndsAtOrAfter from changed.now }
        ensures builder { IfOk result (λ _. IsBuilder T.rules self.new) }
        ensures shared { IfOk result (λ rest. AreChunksShared from to changed.now (map (move base) chunks.now) (map (move base) rest.now) (built self.old) (built self.new)) }
    {
        let mut rest = chunks;
        while let Some((placed, others)) = rest.split_first() {
            let start = placed.start + base;
            let end = start + placed.reach();
            if placed.chunk.is_turned || first_meets(changed, from, end) {
                return Ok(rest);
            }
            // What `share` does stands here once more: most chunks that are shared come by here, and a call costs as much as the work.
            self.done.push(placed.at(start - from + to)?)?;
            rest = others;
        }
        Ok(rest)
    }

    /// The chunks of all ranges.
    pub(crate) fn finish(self) -> Vec<Placed<T>>
        requires { IsBuilder T.rules self }
        ensures chunks { AreChunks T.rules result.items }
        ensures ranges { flat result.items ≡ built self }
    {
        self.done
    }
}

/// How many of some ranges come into the first part where they are cut: all, where they make one chunk. They do where they are one
/// range, or at most `MAX_RANGES` of which none is longer than `MAX_SHARED_LEN`. Where at most `MAX_RANGES` and `FEW_RANGES` are left,
/// those before the first longer one do, or it alone where it stands first; else as many as `part_len` says. None is longer than
/// `longest`, so a longer one is looked for where that is more than `MAX_SHARED_LEN` alone.
fn chunk_len<T>(ranges: &[Ranged<T>], longest: u32) -> usize
    ensures some { 1 ≤ length ranges.now → 1 ≤ result }
    ensures within { result ≤ length ranges.now }
    ensures few { result ≡ length ranges.now → length ranges.now ≤ 128 }
{
    let len = ranges.len();
    if longest > MAX_SHARED_LEN && len <= MAX_RANGES + FEW_RANGES {
        let short = short_len(ranges);
        if short < len {
            return short.max(1);
        }
    }
    part_len(len, MAX_RANGES, FEW_RANGES)
}

/// How many ranges stand before the first that is too long to share a chunk with others.
fn short_len<T>(ranges: &[Ranged<T>]) -> usize
    ensures { result ≤ length ranges.now }
{
    let mut count = 0;
    for range in ranges {
        if is_long(range) {
            return count;
        }
        count += 1;
    }
    count
}
