// Cutting a block into its pieces.
ghost use Rattle.std.specs.Prelude.{◌≡◌, ◌+◌, ◌-◌, ◌<◌, ◌≤◌, ◌^◌, length, chars, IfOk, IfSome, OnOk};
ghost use Rattle.std.specs.String.{string_bytes};
ghost use Rattle.line_tree.specs.Text.{slice};
ghost use Rattle.cells.specs.Layout.{clusters};
ghost use Rattle.pieces.specs.Pieces.{block_of, by_clusters, run, up_to, walked};
ghost use Rattle.pieces.specs.Blocks.{AreStyled, shown_block};
ghost use Rattle.pieces.specs.Edge.{cut_at};
ghost use Rattle.pieces.specs.Standing.{piece_at};
ghost use Rattle.pieces.specs.Filling.{GoalFits, all_put, put_all, wanted};
ghost use Rattle.pieces.specs.Rules.{pieces_of};

use crate::edge::Edge;
use crate::filling::Filling;
use crate::goal::Goal;
use crate::item::Item;
use crate::items::items_of;
use crate::piece::Pieces;
use crate::shading::{block_style, style_ranges};
use crate::style_range::{StyleRange, style_at, styles_of};
use cells::char_count;
use decoration::{Layers, Style};
use line_tree::{Text, TextCursor};
use selection::Selection;
use std::alloc::{AllocError, Global};
use unicode_segmentation::UnicodeSegmentation;

/// A block of a text, from a place to a place, with its style, what styles its characters, and the style of each where
/// that is listed.
#[derive(Drop)]
struct Block<'a> {
    text: &'a Text,
    from: u32,
    to: u32,
    style: Style,
    ranges: Vec<StyleRange>,
    styles: Vec<Style>,
}

/// The pieces of the block of a text from one place to another, in characters: its clusters, and the texts of widgets and
/// replacements. `Err`: out of memory.
pub fn pieces(
    alloc: Global,
    text: &Text,
    from: u32,
    to: u32,
    layers: &Layers,
    selection: &Selection,
) -> Result<Pieces, AllocError>
    requires order { from ≤ to }
    requires within { to ≤ length text.now.characters }
    ensures { IfOk result (λ pieces. pieces ≡ pieces_of text.now.characters from to layers.now selection.now.ranges) }
{
    whole_block(alloc, text, from, to, layers, selection, Goal::Whole)
}

/// Those of them that a window shows: from the first that ends after its left edge to the last that begins before its right
/// edge. `Err`: out of memory.
pub fn shown_pieces(
    alloc: Global,
    text: &Text,
    from: u32,
    to: u32,
    layers: &Layers,
    selection: &Selection,
    edge: Edge,
) -> Result<Pieces, AllocError>
    requires order { from ≤ to }
    requires within { to ≤ length text.now.characters }
    requires positive { 0 < edge.tab }
    requires small { edge.tab ≤ 16 }
    ensures { IfOk result (λ pieces. pieces ≡ cut_at edge (pieces_of text.now.characters from to layers.now selection.now.ranges)) }
{
    let columns = edge.left.saturating_add(edge.cols as u128);
    let len = columns.min(u32::MAX as u128) as u32;
    let goal = Goal::Shown(edge);
    growing_part(alloc, text, from, to, layers, selection, goal, len)
}

/// The one of them that stands at the cursor's place `pos`, which counts characters from the block's start, if one does.
/// `Err`: out of memory.
pub fn piece_at(
    alloc: Global,
    text: &Text,
    from: u32,
    to: u32,
    layers: &Layers,
    selection: &Selection,
    tab: u8,
    pos: u32,
) -> Result<Pieces, AllocError>
    requires order { from ≤ to }
    requires within { to ≤ length text.now.characters }
    requires positive { 0 < tab }
    requires small { tab ≤ 16 }
    ensures { IfOk result (λ pieces. pieces ≡ piece_at tab pos (pieces_of text.now.characters from to layers.now selection.now.ranges)) }
{
    let goal = Goal::At { tab, pos };
    let len = pos.saturating_add(1);
    growing_part(alloc, text, from, to, layers, selection, goal, len)
}

/// The pieces that are wanted of a block, found in a part from its start: one character more than `len`, then twice as many,
/// and so on, until a piece after those that are wanted was met.
fn growing_part(
    alloc: Global,
    text: &Text,
    from: u32,
    to: u32,
    layers: &Layers,
    selection: &Selection,
    goal: Goal,
    len: u32,
) -> Result<Pieces, AllocError>
    requires order { from ≤ to }
    requires within { to ≤ length text.now.characters }
    requires goal { GoalFits goal }
    ensures { IfOk result (λ pieces. pieces ≡ wanted goal (pieces_of text.now.characters from to layers.now selection.now.ranges)) }
{
    let mut len = len.saturating_add(1);
    for _ in 0..32 {
        let stop = part_end(from, to, len);
        let found = in_part(alloc, text, from, stop, to, layers, selection, goal)?;
        if let Some(pieces) = found {
            return Ok(pieces);
        }
        len = len.saturating_mul(2);
    }
    whole_block(alloc, text, from, to, layers, selection, goal)
}

/// Where a part of so many characters of a block ends.
fn part_end(from: u32, to: u32, len: u32) -> u32
    requires { from ≤ to }
    ensures starts { from ≤ result }
    ensures ends { result ≤ to }
{
    from + (to - from).min(len)
}

/// The pieces that are wanted of a block, if its part up to the place `stop` tells.
fn in_part(
    alloc: Global,
    text: &Text,
    from: u32,
    stop: u32,
    to: u32,
    layers: &Layers,
    selection: &Selection,
    goal: Goal,
) -> Result<Option<Pieces>, AllocError>
    requires order { from ≤ stop }
    requires part { stop ≤ to }
    requires within { to ≤ length text.now.characters }
    requires goal { GoalFits goal }
    ensures { IfOk result (λ found. IfSome found (λ pieces. pieces ≡ wanted goal (pieces_of text.now.characters from to layers.now selection.now.ranges))) }
{
    let filling = filling_of(alloc, text, from, stop, layers, selection, goal)?;
    if stop == to {
        return Ok(Some(filling.into_pieces()));
    }
    if filling.is_over() {
        return Ok(Some(filling.into_pieces()));
    }
    Ok(None)
}

/// The pieces that are wanted of a block.
fn whole_block(
    alloc: Global,
    text: &Text,
    from: u32,
    to: u32,
    layers: &Layers,
    selection: &Selection,
    goal: Goal,
) -> Result<Pieces, AllocError>
    requires order { from ≤ to }
    requires within { to ≤ length text.now.characters }
    requires goal { GoalFits goal }
    ensures { IfOk result (λ pieces. pieces ≡ wanted goal (pieces_of text.now.characters from to layers.now selection.now.ranges)) }
{
    let filling = filling_of(alloc, text, from, to, layers, selection, goal)?;
    Ok(filling.into_pieces())
}

/// All pieces of a block put, of which those that are wanted are kept.
fn filling_of(
    alloc: Global,
    text: &Text,
    from: u32,
    to: u32,
    layers: &Layers,
    selection: &Selection,
    goal: Goal,
) -> Result<Filling, AllocError>
    requires order { from ≤ to }
    requires within { to ≤ length text.now.characters }
    requires goal { GoalFits goal }
    ensures { IfOk result (λ filling. filling ≡ all_put goal (pieces_of text.now.characters from to layers.now selection.now.ranges)) }
{
    let block = block_of(alloc, text, from, to, layers, selection)?;
    let items = items_of(alloc, layers, from, to)?;
    let filling = walked(alloc, &block, items, goal)?;
    Ok(filling)
}

fn block_of<'a>(
    alloc: Global,
    text: &'a Text,
    from: u32,
    to: u32,
    layers: &Layers,
    selection: &Selection,
) -> Result<Block<'a>, AllocError>
    requires { from ≤ to }
    ensures block { IfOk result (λ block. shown_block block ≡ block_of text.now.characters from to layers.now selection.now.ranges) }
    ensures styled { IfOk result (λ block. AreStyled block) }
{
    let ranges = style_ranges(alloc, layers, selection, from, to)?;
    let style = block_style(layers, from);
    let styles = styles_of(alloc, from, to - from, style, ranges.as_slice())?;
    Ok(Block {
        text,
        from,
        to,
        style,
        ranges,
        styles,
    })
}

/// The pieces of the block, in which these items stand, put of which those that are wanted are kept.
fn walked(
    alloc: Global,
    block: &Block<'_>,
    items: Vec<Item>,
    goal: Goal,
) -> Result<Filling, AllocError>
    requires order { block.now.from ≤ block.now.to }
    requires within { block.now.to ≤ length block.now.text.now.characters }
    requires styled { AreStyled block.now }
    requires goal { GoalFits goal }
    ensures { IfOk result (λ filling. filling ≡ all_put goal (record { style = block.now.style; start = 0; pieces = walked (shown_block block.now) block.now.from items.items })) }
{
    let mut filling = Filling::new(alloc, block.style, goal);
    push_items(alloc, &mut filling, block, items)?;
    Ok(filling)
}

/// Puts the pieces of the block, in which these items stand.
fn push_items(
    alloc: Global,
    filling: &mut Filling,
    block: &Block<'_>,
    items: Vec<Item>,
) -> Result<(), AllocError>
    requires order { block.now.from ≤ block.now.to }
    requires within { block.now.to ≤ length block.now.text.now.characters }
    requires styled { AreStyled block.now }
    ensures { OnOk result (filling.new ≡ put_all filling.old (walked (shown_block block.now) block.now.from items.items)) }
{
    let mut at = block.from;
    for item in items {
        if filling.is_over() {
            return Ok(());
        }
        push_up_to(alloc, filling, block, at, &item)?;
        at = at.max(item.to);
    }
    push_run(alloc, filling, block, at, block.to)?;
    Ok(())
}

/// Puts the characters from the place `at` to before an item, and its text, unless it starts before `at`.
fn push_up_to(
    alloc: Global,
    filling: &mut Filling,
    block: &Block<'_>,
    at: u32,
    item: &Item,
) -> Result<(), AllocError>
    requires within { block.now.to ≤ length block.now.text.now.characters }
    requires started { block.now.from ≤ at }
    requires styled { AreStyled block.now }
    ensures { OnOk result (filling.new ≡ put_all filling.old (up_to (shown_block block.now) at item.now)) }
{
    if at <= item.place {
        push_run(alloc, filling, block, at, item.place)?;
        item.push_to(alloc, filling, block.from, block.style)?;
    }
    Ok(())
}

/// Puts the clusters of the block's characters from the place `at` to before the place `end`.
fn push_run(
    alloc: Global,
    filling: &mut Filling,
    block: &Block<'_>,
    at: u32,
    end: u32,
) -> Result<(), AllocError>
    requires within { block.now.to ≤ length block.now.text.now.characters }
    requires started { block.now.from ≤ at }
    requires styled { AreStyled block.now }
    ensures { OnOk result (filling.new ≡ put_all filling.old (run (shown_block block.now) at end)) }
{
    let end = end.min(block.to);
    if at >= end {
        return Ok(());
    }
    push_some(alloc, filling, block, at, end)
}

/// The same of at least one character.
fn push_some(
    alloc: Global,
    filling: &mut Filling,
    block: &Block<'_>,
    at: u32,
    end: u32,
) -> Result<(), AllocError>
    requires within { block.now.to ≤ length block.now.text.now.characters }
    requires started { block.now.from ≤ at }
    requires some { at < end }
    requires ended { end ≤ block.now.to }
    requires styled { AreStyled block.now }
    ensures { OnOk result (filling.new ≡ put_all filling.old (by_clusters (shown_block block.now).style_of (at - block.now.from) (clusters (slice at end block.now.text.now.characters)))) }
{
    let text = slice_text(block.text, at, end)?;
    push_clusters(alloc, filling, block, text.as_str(), at - block.from)
}

/// The characters from one place to another, in UTF-8. `Err`: out of memory.
pub fn slice_text(text: &Text, from: u32, to: u32) -> Result<String, AllocError>
    requires order { from ≤ to }
    requires within { to ≤ length text.now.characters }
    ensures { IfOk result (λ s. chars (string_bytes s) ≡ slice from to text.now.characters) }
{
    let mut cursor = TextCursor::new(text);
    cursor.skip(from);
    cursor.next_string(to - from)
}

/// Puts the clusters of the text, of which the first stands at the place `base` of the block.
fn push_clusters(
    alloc: Global,
    filling: &mut Filling,
    block: &Block<'_>,
    text: &str,
    base: u32,
) -> Result<(), AllocError>
    requires fits { block.now.from + (base + length (chars text.now)) < 2 ^ 32 }
    requires styled { AreStyled block.now }
    ensures { OnOk result (filling.new ≡ put_all filling.old (by_clusters (shown_block block.now).style_of base (clusters (chars text.now)))) }
{
    let mut place = base;
    for cluster in text.graphemes(true) {
        if filling.is_over() {
            return Ok(());
        }
        let style = style_of(block, place);
        filling.push(alloc, place, cluster, style, false)?;
        place += char_count(cluster) as u32;
    }
    Ok(())
}

/// The style of the character at a place of the block.
fn style_of(block: &Block<'_>, place: u32) -> Style
    requires fits { block.now.from + place < 2 ^ 32 }
    requires styled { AreStyled block.now }
    ensures { result ≡ (shown_block block.now).style_of place }
{
    let index = place as usize;
    if index < block.styles.len() {
        return block.styles[index];
    }
    style_at(block.style, block.ranges.as_slice(), block.from + place)
}
