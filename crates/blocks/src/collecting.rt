// The lines that replacements join.
ghost use Rattle.std.specs.Prelude.{ℕ, false, ◌≡◌, ◌<◌, ◌||◌, List, length, IfOk, OnOk};
ghost use Rattle.std.specs.List.{list_any};
ghost use Rattle.range_set.specs.Seen.{seen};
ghost use Rattle.line_tree.specs.declared.line.Line.{Line};
ghost use Rattle.line_tree.specs.Lines.{lines_of, IsLineOf};
ghost use Rattle.blocks.specs.Hiding.{blocks_of, hides, hides_break, is_hidden, is_replacement, joined_lines, set_hides};
ghost use Rattle.blocks.specs.Joins.{AreJoins, AreRanges, covers, is_joined, is_wrong};

use crate::joins::{Joins, joined};
use crate::line_range::LineRange;
use decoration::{Deco, DecoSet, Layers};
use line_tree::Text;
use range_set::RangeRef;
use stable_order::sort_stably;
use std::alloc::{AllocError, Global};

/// The blocks of several lines of a text under these layers. `Err`: out of memory.
pub(crate) fn joins_of(alloc: Global, text: &Text, layers: &Layers) -> Result<Joins, AllocError>
    ensures lines { IfOk result (λ joins. joins.lines ≡ length (lines_of text.now.characters)) }
    ensures order { IfOk result (λ joins. AreJoins joins.lines 0 0 joins.list.items) }
    ensures same { IfOk result (λ joins. joined_lines (is_joined joins.list.items) (lines_of text.now.characters) ≡ blocks_of text.now.characters layers.now) }
{
    let ranges = sorted_ranges(alloc, text, layers.sets())?;
    joined(alloc, text.lines(), ranges.as_slice())
}

/// The lines that replacements join, in the order of their first lines.
fn sorted_ranges(alloc: Global, text: &Text, sets: &[DecoSet]) -> Result<Vec<LineRange>, AllocError>
    ensures order { IfOk result (λ v. AreRanges (length (lines_of text.now.characters)) 1 v.items) }
    ensures breaks { IfOk result (λ v. (line : Line) → IsLineOf text.now.characters line → line.number < length (lines_of text.now.characters) → list_any (covers line.number) v.items ≡ hides_break sets.now line) }
{
    let mut ranges = line_ranges(alloc, text, sets)?;
    sort_stably(&mut ranges)?;
    Ok(ranges)
}

/// For each replacement that covers a break, the first and the last line between which it covers the breaks, in the order of
/// the layers. `Err`: out of memory.
fn line_ranges(alloc: Global, text: &Text, sets: &[DecoSet]) -> Result<Vec<LineRange>, AllocError>
    ensures within { IfOk result (λ v. list_any (is_wrong (length (lines_of text.now.characters))) v.items ≡ false) }
    ensures breaks { IfOk result (λ v. (line : Line) → IsLineOf text.now.characters line → line.number < length (lines_of text.now.characters) → list_any (covers line.number) v.items ≡ hides_break sets.now line) }
{
    let mut ranges = Vec::new(alloc);
    for set in sets {
        push_set(&mut ranges, text, set)?;
    }
    Ok(ranges)
}

/// Adds the lines that the replacements of a set join.
fn push_set(ranges: &mut Vec<LineRange>, text: &Text, set: &DecoSet) -> Result<(), AllocError>
    ensures within { OnOk result (list_any (is_wrong (length (lines_of text.now.characters))) ranges.new.items ≡ list_any (is_wrong (length (lines_of text.now.characters))) ranges.old.items) }
    ensures breaks { OnOk result ((line : Line) → IsLineOf text.now.characters line → line.number < length (lines_of text.now.characters) → list_any (covers line.number) ranges.new.items ≡ (list_any (covers line.number) ranges.old.items || set_hides line.to set.now)) }
{
    for range in set.points() {
        push_range(ranges, text, &range)?;
    }
    Ok(())
}

/// Adds the lines that a decoration joins, if it is a replacement that covers a break.
fn push_range(
    ranges: &mut Vec<LineRange>,
    text: &Text,
    range: &RangeRef<'_, Deco>,
) -> Result<(), AllocError>
    ensures within { OnOk result (list_any (is_wrong (length (lines_of text.now.characters))) ranges.new.items ≡ list_any (is_wrong (length (lines_of text.now.characters))) ranges.old.items) }
    ensures breaks { OnOk result ((line : Line) → IsLineOf text.now.characters line → line.number < length (lines_of text.now.characters) → list_any (covers line.number) ranges.new.items ≡ (list_any (covers line.number) ranges.old.items || hides line.to (seen range.now))) }
{
    if !is_replacement(range.value) || range.from > text.len() {
        return Ok(());
    }
    let first = text.line_at(range.from).number;
    let last = text.line_at(range.to.min(text.len())).number;
    if first < last {
        ranges.push(LineRange { first, last })?;
    }
    Ok(())
}

fn is_replacement(deco: &Deco) -> bool
    ensures { result ≡ is_replacement deco.now }
{
    matches!(deco, Deco::Replace(_))
}
