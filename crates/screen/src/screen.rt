// The rows of the window, kept from one frame to the next.
ghost use Rattle.std.specs.Prelude.{◌≡◌, ◌+◌, ◌<◌, ◌≤◌, ◌^◌, [], length, map, slice_get, IfOk, OnOk, OnErr};
ghost use Rattle.std.specs.Option.{option_copied};
ghost use Rattle.selection.specs.Selections.{LieIn};
ghost use Rattle.blocks.specs.Hiding.{blocks_of};
ghost use Rattle.pieces.specs.Edge.{cut_at};
ghost use Rattle.pieces.specs.Rules.{pieces_of};
ghost use Rattle.screen.specs.Head.{ShowsHead, cursor_in};
ghost use Rattle.screen.specs.Screen.{RowKey, block_at, changed, cost, drawn, edge_of, key_at, pieces_at, rendered, row_cells, shown_view};

use crate::drawn_row::DrawnRow;
use crate::head::{cursor_at, head_place};
use crate::view::View;
use decoration::Style;
use line_rows::{Block, Blocks, Cursor, Edge, Pieces, shown_pieces};
use std::alloc::{AllocError, Global};
use std::marker::Model;
use std::sync::ledger::Ledger;
use steps::Steps;

/// The rows that were drawn last, and where the cursor stands among them.
#[derive(Drop)]
pub struct Screen {
    rows: Vec<DrawnRow>,
    cursor: Cursor,
}

impl Model for Screen {
    ghost use Rattle.screen.specs.Screen.{ScreenView};

    ghost Value = { ScreenView };

    ghost view = { λ s. record { rows = s.rows.items; cursor = s.cursor } };
}

impl Screen {
    /// A screen without rows.
    pub fn blank(alloc: Global) -> Screen
        ensures { result ≡ record { rows = []; cursor = record { row = 0; column = 0 } } }
    {
        Screen {
            rows: Vec::new(alloc),
            cursor: Cursor { row: 0, column: 0 },
        }
    }

    /// Draws the view, whose window shows the block and the column of the main range's head. It raises `laid` by at most
    /// the number of rows that differ from those drawn last. `Err`: out of memory, and the screen is as before.
    pub fn draw<L: Ledger>(
        &mut self,
        view: &View<'_>,
        laid: &mut Steps<L>,
    ) -> Result<(), AllocError>
        requires positive { 0 < (shown_view view.now).tab }
        requires small { (shown_view view.now).tab ≤ 16 }
        requires inside { LieIn (length (shown_view view.now).text) (shown_view view.now).selection.ranges }
        requires shows { ShowsHead (shown_view view.now) }
        ensures drawn { OnOk result (self.new.rows ≡ drawn (shown_view view.now)) }
        ensures rendered { OnOk result (map row_cells self.new.rows ≡ rendered (shown_view view.now)) }
        ensures cursor { OnOk result (self.new.cursor ≡ cursor_in (shown_view view.now)) }
        ensures failed { OnErr result (self.new ≡ self.old) }
        ensures bound { laid.new ≤ laid.old + changed self.old.rows (drawn (shown_view view.now)) }
        ensures most { laid.new ≤ laid.old + (shown_view view.now).window.rows }
    {
        let alloc = *self.rows.allocator();
        let blocks = Blocks::of(alloc, view.doc, view.layers)?;
        let place = head_place(alloc, view, &blocks)?;
        let cursor = cursor_at(view.window, place);
        let rows = redrawn(alloc, self.rows.as_slice(), view, &blocks, laid)?;
        self.rows = rows;
        self.cursor = cursor;
        Ok(())
    }

    /// The rows.
    pub fn rows(&self) -> &[DrawnRow]
        ensures { result.now ≡ self.now.rows }
    {
        self.rows.as_slice()
    }

    /// Where the cursor stands.
    pub fn cursor(&self) -> Cursor
        ensures { result ≡ self.now.cursor }
    {
        self.cursor
    }
}

/// New rows for the view, of which those that equal the old row in their place are kept.
fn redrawn<L: Ledger>(
    alloc: Global,
    old: &[DrawnRow],
    view: &View<'_>,
    blocks: &Blocks,
    laid: &mut Steps<L>,
) -> Result<Vec<DrawnRow>, AllocError>
    requires positive { 0 < (shown_view view.now).tab }
    requires small { (shown_view view.now).tab ≤ 16 }
    requires top { (shown_view view.now).window.top < 2 ^ 64 }
    requires blocks { blocks.now ≡ record { text = (shown_view view.now).text; blocks = blocks_of (shown_view view.now).text (shown_view view.now).layers } }
    ensures rows { IfOk result (λ rows. rows.items ≡ drawn (shown_view view.now)) }
    ensures bound { laid.new ≤ laid.old + changed old.now (drawn (shown_view view.now)) }
{
    let mut rows = Vec::new(alloc);
    let top = view.window.top();
    for i in 0..view.window.rows() {
        let row = drawn_row(
            alloc,
            row_at(old, i as usize),
            view,
            blocks,
            top + i as u128,
            laid,
        )?;
        rows.push(row)?;
    }
    Ok(rows)
}

fn row_at(rows: &[DrawnRow], i: usize) -> Option<&DrawnRow>
    ensures { option_copied result ≡ slice_get rows.now i }
{
    rows.get(i)
}

/// The row that shows the block of a number.
fn drawn_row<L: Ledger>(
    alloc: Global,
    old: Option<&DrawnRow>,
    view: &View<'_>,
    blocks: &Blocks,
    number: u128,
    laid: &mut Steps<L>,
) -> Result<DrawnRow, AllocError>
    requires positive { 0 < (shown_view view.now).tab }
    requires small { (shown_view view.now).tab ≤ 16 }
    requires blocks { blocks.now ≡ record { text = (shown_view view.now).text; blocks = blocks_of (shown_view view.now).text (shown_view view.now).layers } }
    ensures value { IfOk result (λ row. row ≡ key_at (shown_view view.now) number) }
    ensures bound { laid.new ≤ laid.old + cost (option_copied old.entry) (key_at (shown_view view.now) number) }
{
    let pieces = row_pieces(alloc, view, blocks, number)?;
    next_row(
        alloc,
        old,
        pieces,
        view.tab,
        view.window.cols(),
        view.window.left(),
        laid,
    )
}

/// The pieces of the block of a number between the window's edges, none past the last block.
fn row_pieces(
    alloc: Global,
    view: &View<'_>,
    blocks: &Blocks,
    number: u128,
) -> Result<Pieces, AllocError>
    requires positive { 0 < (shown_view view.now).tab }
    requires small { (shown_view view.now).tab ≤ 16 }
    requires blocks { blocks.now ≡ record { text = (shown_view view.now).text; blocks = blocks_of (shown_view view.now).text (shown_view view.now).layers } }
    ensures { IfOk result (λ pieces. pieces ≡ cut_at (edge_of (shown_view view.now)) (pieces_at (shown_view view.now) (block_at (shown_view view.now) number))) }
{
    if number == 0 || number > u128::from(blocks.count()) {
        return Ok(Pieces::none(alloc, Style::plain()));
    }
    let block = blocks.span(number as u64);
    block_pieces(alloc, view, block)
}

/// The pieces of a block between the window's edges.
fn block_pieces(alloc: Global, view: &View<'_>, block: Block) -> Result<Pieces, AllocError>
    requires positive { 0 < (shown_view view.now).tab }
    requires small { (shown_view view.now).tab ≤ 16 }
    requires order { block.from ≤ block.to }
    requires within { block.to ≤ length (shown_view view.now).text }
    ensures { IfOk result (λ pieces. pieces ≡ cut_at (edge_of (shown_view view.now)) (pieces_of (shown_view view.now).text block.from block.to (shown_view view.now).layers (shown_view view.now).selection.ranges)) }
{
    let edge = Edge {
        tab: view.tab,
        left: view.window.left(),
        cols: view.window.cols(),
    };
    shown_pieces(
        alloc,
        view.doc,
        block.from,
        block.to,
        view.layers,
        view.selection,
        edge,
    )
}

/// The row of these pieces: the old one where it is equal, else one that is laid out anew.
fn next_row<L: Ledger>(
    alloc: Global,
    old: Option<&DrawnRow>,
    pieces: Pieces,
    tab: u8,
    cols: u32,
    left: u128,
    laid: &mut Steps<L>,
) -> Result<DrawnRow, AllocError>
    requires positive { 0 < tab }
    requires small { tab ≤ 16 }
    requires few { cols ≤ 500 }
    ensures value { IfOk result (λ row. row ≡ record { pieces = pieces; tab = tab; cols = cols; left = left }) }
    ensures bound { laid.new ≤ laid.old + cost (option_copied old.entry) (record { pieces = pieces; tab = tab; cols = cols; left = left }) }
{
    match old {
        Some(old) if old.shows(&pieces, tab, cols, left) => old.keep(pieces),
        _ => DrawnRow::lay(alloc, pieces, tab, cols, left, laid),
    }
}
