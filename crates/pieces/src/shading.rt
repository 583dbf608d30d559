// What styles the characters of a block.
ghost use Rattle.std.specs.Prelude.{◌≡◌, ◌++◌, flat_map, IfOk, OnOk};
ghost use Rattle.range_set.specs.Seen.{seen};
ghost use Rattle.pieces.specs.Shading.{block_style, line_over, line_styled, mark_of, marks_of, reversed, selected, style_ranges, touching};

use crate::style_range::StyleRange;
use crate::styles::over;
use decoration::{Deco, DecoSet, Layers, Style};
use range_set::RangeRef;
use selection::{Range, Selection};
use std::alloc::{AllocError, Global};

/// The style of the line decorations at the place.
pub(crate) fn block_style(layers: &Layers, from: u32) -> Style
    ensures { result ≡ block_style from layers.now }
{
    let sets = layers.sets();
    let mut style = Style::plain();
    for i in (0..sets.len()).rev() {
        style = line_styled(&sets[i], from, style);
    }
    style
}

/// The style with the line decorations at the place over it.
fn line_styled(set: &DecoSet, from: u32, style: Style) -> Style
    ensures { result ≡ line_styled from style (touching from from set.now) }
{
    let mut style = style;
    for range in set.between(from, from) {
        style = line_over(from, style, range.value, range.from);
    }
    style
}

fn line_over(from: u32, under: Style, deco: &Deco, at: u32) -> Style
    ensures { result ≡ line_over from under deco.now at }
{
    match deco {
        Deco::Line(style) if at == from => over(under, style.style()),
        _ => under,
    }
}

/// The marks and the selection ranges that style the characters from one place to another, from the outermost to the
/// innermost. `Err`: out of memory.
pub(crate) fn style_ranges(
    alloc: Global,
    layers: &Layers,
    selection: &Selection,
    from: u32,
    to: u32,
) -> Result<Vec<StyleRange>, AllocError>
    ensures { IfOk result (λ ranges. ranges.items ≡ style_ranges from to layers.now selection.now.ranges) }
{
    let mut ranges = marks_of(alloc, layers, from, to)?;
    push_selected(&mut ranges, selection.ranges(), from, to)?;
    Ok(ranges)
}

/// The marks, from the outermost to the innermost.
fn marks_of(
    alloc: Global,
    layers: &Layers,
    from: u32,
    to: u32,
) -> Result<Vec<StyleRange>, AllocError>
    ensures { IfOk result (λ ranges. ranges.items ≡ marks_of from to layers.now) }
{
    let sets = layers.sets();
    let mut ranges = Vec::new(alloc);
    for i in (0..sets.len()).rev() {
        push_marks(&mut ranges, &sets[i], from, to)?;
    }
    Ok(ranges)
}

/// Adds the marks of a set in its order.
fn push_marks(
    ranges: &mut Vec<StyleRange>,
    set: &DecoSet,
    from: u32,
    to: u32,
) -> Result<(), AllocError>
    ensures { OnOk result (ranges.new.items ≡ ranges.old.items ++ flat_map mark_of (touching from to set.now)) }
{
    for range in set.between(from, to) {
        push_mark(ranges, &range)?;
    }
    Ok(())
}

/// Adds the decoration, if it is a mark.
fn push_mark(ranges: &mut Vec<StyleRange>, range: &RangeRef<'_, Deco>) -> Result<(), AllocError>
    ensures { OnOk result (ranges.new.items ≡ ranges.old.items ++ mark_of (seen range.now)) }
{
    if let Deco::Mark(mark) = range.value {
        ranges.push(StyleRange {
            from: range.from,
            to: range.to,
            style: mark.style(),
        })?;
    }
    Ok(())
}

/// Adds the selection ranges.
fn push_selected(
    ranges: &mut Vec<StyleRange>,
    given: &[Range],
    from: u32,
    to: u32,
) -> Result<(), AllocError>
    ensures { OnOk result (ranges.new.items ≡ ranges.old.items ++ flat_map (selected from to) given.now) }
{
    for range in given {
        push_one_selected(ranges, *range, from, to)?;
    }
    Ok(())
}

/// Adds the selection range, if it isn't empty and touches the block.
fn push_one_selected(
    ranges: &mut Vec<StyleRange>,
    range: Range,
    from: u32,
    to: u32,
) -> Result<(), AllocError>
    ensures { OnOk result (ranges.new.items ≡ ranges.old.items ++ selected from to range) }
{
    if !range.is_empty() && range.from() <= to && from <= range.to() {
        ranges.push(StyleRange {
            from: range.from(),
            to: range.to(),
            style: reversed(),
        })?;
    }
    Ok(())
}

/// The style of selected characters.
fn reversed() -> Style
    ensures { result ≡ reversed }
{
    Style {
        reverse: true,
        ..Style::plain()
    }
}
