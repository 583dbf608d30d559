// Where the main range's head stands, and the window that shows it.
ghost use Rattle.std.specs.Prelude.{◌≡◌, ◌<◌, ◌≤◌, false, length, IfOk, IfSome, Some};
ghost use Rattle.selection.specs.Selections.{LieIn};
ghost use Rattle.viewport.specs.Reveal.{Shows};
ghost use Rattle.blocks.specs.Hiding.{blocks_of};
ghost use Rattle.blocks.specs.Points.{has_points};
ghost use Rattle.screen.specs.Screen.{shown_view};
ghost use Rattle.screen.specs.Head.{ShowsHead, head_place, place_from};
ghost use Rattle.screen.specs.Reveal.{moved_to, revealed_window};

use crate::view::View;
use line_rows::{Blocks, Cursor, column_of, has_points, piece_at, place_in_line};
use std::alloc::{AllocError, Global};
use viewport::Viewport;

/// The block in which the main range's head stands, from 1, its column, from 0, and the width of the piece that stands
/// there, at least 1.
#[derive(Clone, Copy, Drop)]
pub(crate) struct HeadPlace {
    pub(crate) number: u64,
    pub(crate) column: u128,
    pub(crate) width: u128,
}

/// The view's window moved as little as it takes to show the block of the main range's head and the piece that stands
/// there. `Err`: out of memory.
pub fn reveal(alloc: Global, view: &View<'_>) -> Result<Viewport, AllocError>
    requires positive { 0 < (shown_view view.now).tab }
    requires small { (shown_view view.now).tab ≤ 16 }
    requires inside { LieIn (length (shown_view view.now).text) (shown_view view.now).selection.ranges }
    ensures value { IfOk result (λ window. window ≡ revealed_window (shown_view view.now)) }
    ensures shows { IfOk result (λ window. ShowsHead (record (shown_view view.now) { window = window })) }
{
    let place = place_of_head(alloc, view)?;
    Ok(moved(view.window, place))
}

/// Where the main range's head stands in the document. `Err`: out of memory.
fn place_of_head(alloc: Global, view: &View<'_>) -> Result<HeadPlace, AllocError>
    requires positive { 0 < (shown_view view.now).tab }
    requires small { (shown_view view.now).tab ≤ 16 }
    requires inside { LieIn (length (shown_view view.now).text) (shown_view view.now).selection.ranges }
    ensures value { IfOk result (λ place. head_place (shown_view view.now) ≡ Some place) }
    ensures some { IfOk result (λ place. 1 ≤ place.width) }
{
    if !has_points(view.layers) {
        if let Some(place) = place_in_line_of(view)? {
            return Ok(place);
        }
    }
    let blocks = Blocks::of(alloc, view.doc, view.layers)?;
    head_place(alloc, view, &blocks)
}

/// The same where each line is a block of which its characters alone are shown. `None`: those up to the one after the head
/// don't tell.
fn place_in_line_of(view: &View<'_>) -> Result<Option<HeadPlace>, AllocError>
    requires plain { has_points (shown_view view.now).layers ≡ false }
    requires positive { 0 < (shown_view view.now).tab }
    requires small { (shown_view view.now).tab ≤ 16 }
    requires inside { LieIn (length (shown_view view.now).text) (shown_view view.now).selection.ranges }
    ensures value { IfOk result (λ found. IfSome found (λ place. head_place (shown_view view.now) ≡ Some place)) }
    ensures some { IfOk result (λ found. IfSome found (λ place. 1 ≤ place.width)) }
{
    let main = view.selection.main();
    let line = view.doc.line_at(main.head);
    let pos = main.head - line.from;
    let found = place_in_line(view.doc, line.from, line.to, view.tab, pos)?;
    match found {
        Some((column, width)) => Ok(Some(HeadPlace {
            number: line.number,
            column,
            width,
        })),
        None => Ok(None),
    }
}

/// The window moved to show a block and the piece that stands there.
fn moved(window: &Viewport, place: HeadPlace) -> Viewport
    requires { 1 ≤ place.width }
    ensures shows { Shows result place.number place.column 1 }
    ensures value { result ≡ moved_to window.now place }
{
    let mut moved = window.copy();
    let cols = moved.cols();
    let width = place.width.min(u128::from(cols)) as u32;
    moved.reveal(u128::from(place.number), place.column, width);
    moved
}

/// Where the main range's head stands in the document.
pub(crate) fn head_place(
    alloc: Global,
    view: &View<'_>,
    blocks: &Blocks,
) -> Result<HeadPlace, AllocError>
    requires positive { 0 < (shown_view view.now).tab }
    requires small { (shown_view view.now).tab ≤ 16 }
    requires inside { LieIn (length (shown_view view.now).text) (shown_view view.now).selection.ranges }
    requires blocks { blocks.now ≡ record { text = (shown_view view.now).text; blocks = blocks_of (shown_view view.now).text (shown_view view.now).layers } }
    ensures value { IfOk result (λ place. head_place (shown_view view.now) ≡ Some place) }
    ensures some { IfOk result (λ place. 1 ≤ place.width) }
{
    let main = view.selection.main();
    let block = blocks.at(main.head);
    let pos = main.head - block.from;
    let found = piece_at(
        alloc,
        view.doc,
        block.from,
        block.to,
        view.layers,
        view.selection,
        view.tab,
        pos,
    )?;
    let (column, width) = column_of(&found, view.tab, pos);
    Ok(HeadPlace {
        number: block.number,
        column,
        width,
    })
}

/// Where a place stands in the window that shows it.
pub(crate) fn cursor_at(window: &Viewport, place: HeadPlace) -> Cursor
    requires { Shows window.now place.number place.column 1 }
    ensures { result ≡ place_from window.now place }
{
    let _rows = window.rows();
    let _cols = window.cols();
    Cursor {
        row: (u128::from(place.number) - window.top()) as u32,
        column: (place.column - window.left()) as u32,
    }
}
