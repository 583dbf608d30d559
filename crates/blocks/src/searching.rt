// Finding a block.
ghost use Rattle.std.specs.Prelude.{◌≡◌, ◌-◌, ◌<◌, ◌≤◌, length, slice_get, Some};
ghost use Rattle.line_tree.specs.Lines.{lines_of, IsLineOf};
ghost use Rattle.blocks.specs.Joins.{AreEnds, AreJoins, joined_blocks};

use crate::block::Block;
use crate::joins::Joins;
use line_tree::{Line, Text};

/// How many blocks a text has.
pub(crate) fn block_count(text: &Text, joins: &Joins) -> u64
    requires lines { joins.now.lines ≡ length (lines_of text.now.characters) }
    requires order { AreJoins joins.now.lines 0 0 joins.now.list.items }
    ensures value { result ≡ length (joined_blocks text.now.characters joins.now.list.items) }
    ensures some { 0 < result }
{
    let before = joins.before(joins.list.len());
    before.number + (text.lines() - before.last)
}

/// The block of a line.
pub(crate) fn block_of_line(text: &Text, joins: &Joins, line: Line) -> Block
    requires lines { joins.now.lines ≡ length (lines_of text.now.characters) }
    requires order { AreJoins joins.now.lines 0 0 joins.now.list.items }
    requires line { IsLineOf text.now.characters line }
    requires within { line.to ≤ length text.now.characters }
    ensures block { slice_get (joined_blocks text.now.characters joins.now.list.items) (result.number - 1) ≡ Some (record { number = result.number; from = result.from; to = result.to }) }
    ensures ends { AreEnds text.now.characters result.first result.last result.from result.to }
    ensures starts { result.first ≤ line.number }
    ensures stops { line.number ≤ result.last }
    ensures within { result.to ≤ length text.now.characters }
{
    let before = joins.before(joins.count_from(line.number));
    if line.number <= before.last {
        lines_block(text, before.number, before.first, before.last)
    } else {
        one_line(before.number + (line.number - before.last), line)
    }
}

/// The block of a number.
pub(crate) fn numbered_block(text: &Text, joins: &Joins, number: u64) -> Block
    requires lines { joins.now.lines ≡ length (lines_of text.now.characters) }
    requires order { AreJoins joins.now.lines 0 0 joins.now.list.items }
    requires first { 0 < number }
    requires last { number ≤ length (joined_blocks text.now.characters joins.now.list.items) }
    ensures number { result.number ≡ number }
    ensures block { slice_get (joined_blocks text.now.characters joins.now.list.items) (number - 1) ≡ Some (record { number = number; from = result.from; to = result.to }) }
    ensures ends { AreEnds text.now.characters result.first result.last result.from result.to }
    ensures order { result.first ≤ result.last }
    ensures within { result.to ≤ length text.now.characters }
{
    let before = joins.before(joins.count_to(number));
    if number == before.number {
        lines_block(text, number, before.first, before.last)
    } else {
        let line = text.line(before.last + (number - before.number));
        one_line(number, line)
    }
}

/// The block of a number that goes from a line to a line.
fn lines_block(text: &Text, number: u64, first: u64, last: u64) -> Block
    requires first { 0 < first }
    requires order { first ≤ last }
    requires last { last ≤ length (lines_of text.now.characters) }
    ensures number { result.number ≡ number }
    ensures first { result.first ≡ first }
    ensures last { result.last ≡ last }
    ensures ends { AreEnds text.now.characters first last result.from result.to }
    ensures within { result.to ≤ length text.now.characters }
{
    let start = text.line(first);
    let end = text.line(last);
    Block {
        number,
        first,
        last,
        from: start.from,
        to: end.to,
    }
}

/// The block of a number that has one line.
fn one_line(number: u64, line: Line) -> Block
    ensures { result ≡ record { number = number; first = line.number; last = line.number; from = line.from; to = line.to } }
{
    Block {
        number,
        first: line.number,
        last: line.number,
        from: line.from,
        to: line.to,
    }
}
