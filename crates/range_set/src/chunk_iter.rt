ghost use Rattle.std.specs.Prelude.{◌++◌, ◌≡◌, ◌≤◌, IfSome, [], None, ℕ, filter, length};
ghost use Rattle.range_set.specs.Points.{points_of};
ghost use Rattle.range_set.specs.PrivateChunks.{Ascend, IsNextChunk, flat, spread, stretch};
ghost use Rattle.range_set.specs.Updating.{overlaps};

use crate::chunk::{Chunk, Placed};
use crate::group_cursor::GroupCursor;
use crate::range_value::RangeValue;
use crate::run::Run;
use std::marker::Model;

/// The chunks of groups in order. Contracts see it as those that are left, at their places.
#[derive(Drop)]
pub(crate) struct ChunkIter<'a, T: RangeValue> {
    /// The place from which the chunks of the group that was reached count.
    base: u32,
    /// By how many characters each range of that group ends later than its chunk says.
    grown: u32,
    chunks: &'a [Placed<T>],
    groups: GroupCursor<'a, T>,
}

impl<'a, T: RangeValue> Model for ChunkIter<'a, T> {
    ghost use Rattle.std.specs.Prelude.{List};
    ghost use Rattle.range_set.specs.declared.chunk.Placed.{Placed};

    ghost Value = { List (Placed T) };

    ghost use Rattle.std.specs.Prelude.{◌++◌, map};
    ghost use Rattle.range_set.specs.PrivateChunks.{AreChunks, lengthen, move, spread};

    ghost view = { λ s. map (move s.base) (map (lengthen s.grown) s.chunks.now) ++ spread s.groups };

    ghost invariant = { λ s. AreChunks T.rules (map (move s.base) (map (lengthen s.grown) s.chunks.now)) };
}

impl<'a, T: RangeValue> ChunkIter<'a, T> {
    /// The chunks of these groups.
    pub(crate) fn over(groups: GroupCursor<'a, T>) -> ChunkIter<'a, T>
        ensures { result ≡ spread groups.entry }
    {
        ChunkIter {
            base: 0,
            grown: 0,
            chunks: &[],
            groups,
        }
    }

    /// The next chunk, its place, and by how many characters each of its ranges ends later than it says.
    pub(crate) fn next_chunk(&mut self) -> Option<(u32, u32, &'a Chunk<T>)>
        ensures next { IfSome result (λ x. IsNextChunk self.old x.0 (stretch x.1 x.2.now) self.new) }
        ensures end { result ≡ None → self.old ≡ [] }
        ensures none { result ≡ None → self.new ≡ [] }
    {
        loop {
            match self.chunks.split_first() {
                Some((next, others)) => {
                    self.chunks = others;
                    return Some((self.base + next.start, next.grown + self.grown, &next.chunk));
                }
                None => {
                    let (start, placed, others) = self.groups.split_first()?;
                    self.base = start;
                    self.grown = placed.grown;
                    self.chunks = placed.group.chunks.as_slice();
                    self.groups = others;
                }
            }
        }
    }

    /// The ranges of the next chunk that has some; none where none are left.
    pub(crate) fn next_run(&mut self) -> Run<'a, T>
        ensures ranges { flat self.old ≡ result ++ flat self.new }
        ensures none { result ≡ [] → flat self.new ≡ [] }
    {
        loop {
            match self.next_chunk() {
                Some((start, grown, chunk)) => {
                    if !chunk.ranges.is_empty() {
                        return Run::over(start, grown, chunk.ranges.as_slice());
                    }
                }
                None => return Run::empty(),
            }
        }
    }

    /// A run that some ranges are left of, or else the next one.
    pub(crate) fn refilled(&mut self, run: Run<'a, T>) -> Run<'a, T>
        ensures ranges { result ++ flat self.new ≡ run.entry ++ flat self.old }
        ensures none { result ≡ [] → flat self.new ≡ [] }
    {
        if run.is_empty() { self.next_run() } else { run }
    }

    /// Passes over chunks, groups and pages that come next and whose hull ends before a place.
    pub(crate) fn pass_chunks(&mut self, place: u32)
        ensures kept { (to : ℕ) → filter (overlaps place to) (flat self.new) ≡ filter (overlaps place to) (flat self.old) }
        ensures order { (n : ℕ) → Ascend n (flat self.old) → Ascend n (flat self.new) }
        ensures fewer { length (flat self.new) ≤ length (flat self.old) }
    {
        loop {
            match self.chunks.split_first() {
                Some((first, others)) => {
                    if place <= self.base + first.start + first.reach() + self.grown {
                        return;
                    }
                    self.chunks = others;
                }
                None => {
                    self.groups = self.groups.past_pages(place);
                    match self.groups.split_first() {
                        Some((start, placed, others)) => {
                            if place <= start + placed.reach() {
                                self.base = start;
                                self.grown = placed.grown;
                                self.chunks = placed.group.chunks.as_slice();
                            }
                            self.groups = others;
                        }
                        None => return,
                    }
                }
            }
        }
    }

    /// Passes over chunks, groups and pages that come next and have no range that stands for what it covers.
    pub(crate) fn pass_without_point(&mut self)
        ensures kept { points_of T.rules (flat self.new) ≡ points_of T.rules (flat self.old) }
        ensures fewer { length (flat self.new) ≤ length (flat self.old) }
    {
        loop {
            match self.chunks.split_first() {
                Some((first, others)) => {
                    if first.chunk.has_point {
                        return;
                    }
                    self.chunks = others;
                }
                None => {
                    self.groups = self.groups.past_pages_without_point();
                    match self.groups.split_first() {
                        Some((start, placed, others)) => {
                            if placed.group.has_point {
                                self.base = start;
                                self.grown = placed.grown;
                                self.chunks = placed.group.chunks.as_slice();
                            }
                            self.groups = others;
                        }
                        None => return,
                    }
                }
            }
        }
    }
}
