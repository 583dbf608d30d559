// The blocks of several lines.
ghost use Rattle.std.specs.Prelude.{ℕ, zero, ◌≡◌, ◌+◌, ◌-◌, ◌<◌, ◌≤◌, [], ◌∷◌, ◌++◌, ◌||◌, length, IfOk, OnOk};
ghost use Rattle.std.specs.List.{list_any, slice_index_or};
ghost use Rattle.blocks.specs.Joins.{AreJoins, AreRanges, covers, holds, none};
ghost use Rattle.blocks.specs.declared.joins.Join.{Join};

use crate::line_range::LineRange;
use std::alloc::{AllocError, Global};

/// A block of several lines: its number, and the numbers of its first and its last line.
#[derive(Clone, Copy, Drop)]
pub(crate) struct Join {
    pub(crate) number: u64,
    pub(crate) first: u64,
    pub(crate) last: u64,
}

/// The blocks of several lines of a text, in order, and how many lines the text has.
#[derive(Drop)]
pub(crate) struct Joins {
    pub(crate) lines: u64,
    pub(crate) list: Vec<Join>,
}

impl Join {
    /// What stands before the first block: no line.
    fn none() -> Join
        ensures { result ≡ none }
    {
        Join {
            number: 0,
            first: 0,
            last: 0,
        }
    }
}

impl Joins {
    /// The last of the first `count` of these blocks.
    pub(crate) fn before(&self, count: usize) -> Join
        requires { count ≤ length self.now.list.items }
        ensures { result ≡ slice_index_or (none ∷ self.now.list.items) count none }
    {
        if count == 0 {
            return Join::none();
        }
        self.list[count - 1]
    }

    /// How many of these blocks begin with the line of a number or an earlier one.
    pub(crate) fn count_from(&self, line: u64) -> usize
        requires { AreJoins self.now.lines 0 0 self.now.list.items }
        ensures within { result ≤ length self.now.list.items }
        ensures begun { (slice_index_or (none ∷ self.now.list.items) result none).first ≤ line }
        ensures next { (d : Join) → result < length self.now.list.items → line < (slice_index_or self.now.list.items result d).first }
    {
        self.list.partition_point(|join| join.first <= line)
    }

    /// How many of these blocks have a number or a lower one.
    pub(crate) fn count_to(&self, number: u64) -> usize
        requires { AreJoins self.now.lines 0 0 self.now.list.items }
        ensures within { result ≤ length self.now.list.items }
        ensures begun { (slice_index_or (none ∷ self.now.list.items) result none).number ≤ number }
        ensures next { (d : Join) → result < length self.now.list.items → number < (slice_index_or self.now.list.items result d).number }
    {
        self.list.partition_point(|join| join.number <= number)
    }
}

/// Puts ranges of lines together where they have a line in common. `Err`: out of memory.
pub(crate) fn joined(alloc: Global, lines: u64, ranges: &[LineRange]) -> Result<Joins, AllocError>
    requires { AreRanges lines 1 ranges.now }
    ensures lines { IfOk result (λ joins. joins.lines ≡ lines) }
    ensures order { IfOk result (λ joins. AreJoins lines 0 0 joins.list.items) }
    ensures same { IfOk result (λ joins. (n : ℕ) → list_any (holds n) joins.list.items ≡ list_any (covers n) ranges.now) }
{
    match ranges {
        [] => Ok(Joins {
            lines,
            list: Vec::new(alloc),
        }),
        [first, rest @ ..] => Ok(Joins {
            lines,
            list: joined_from(alloc, lines, *first, rest)?,
        }),
    }
}

/// The same of ranges, the first of which is given by itself.
fn joined_from(
    alloc: Global,
    lines: u64,
    start: LineRange,
    rest: &[LineRange],
) -> Result<Vec<Join>, AllocError>
    requires first { 0 < start.first }
    requires some { start.first < start.last }
    requires within { start.last ≤ lines }
    requires rest { AreRanges lines start.first rest.now }
    ensures order { IfOk result (λ joins. AreJoins lines 0 0 joins.items) }
    ensures same { IfOk result (λ joins. (n : ℕ) → list_any (holds n) joins.items ≡ (covers n start || list_any (covers n) rest.now)) }
{
    let mut joins = Vec::new(alloc);
    let mut last = Join {
        number: start.first,
        first: start.first,
        last: start.last,
    };
    for range in rest {
        push_range(lines, &mut joins, &mut last, *range)?;
    }
    joins.push(last)?;
    Ok(joins)
}

/// Makes the last block longer by a range that has a line in common with it, or else adds it to the others, and the range
/// is the last.
fn push_range(
    lines: u64,
    joins: &mut Vec<Join>,
    last: &mut Join,
    range: LineRange,
) -> Result<(), AllocError>
    requires order { AreJoins lines 0 0 (joins.old.items ++ last.old ∷ []) }
    requires first { last.old.first ≤ range.first }
    requires some { range.first < range.last }
    requires within { range.last ≤ lines }
    ensures order { OnOk result (AreJoins lines 0 0 (joins.new.items ++ last.new ∷ [])) }
    ensures first { OnOk result (last.new.first ≤ range.first) }
    ensures same { OnOk result ((n : ℕ) → list_any (holds n) (joins.new.items ++ last.new ∷ []) ≡ (list_any (holds n) (joins.old.items ++ last.old ∷ []) || covers n range)) }
{
    if range.first <= last.last {
        last.last = last.last.max(range.last);
    } else {
        let next = Join {
            number: last.number + (range.first - last.last),
            first: range.first,
            last: range.last,
        };
        joins.push(*last)?;
        *last = next;
    }
    Ok(())
}
