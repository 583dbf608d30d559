// The cells of a row.
ghost use Rattle.std.specs.Prelude.{◌≡◌, ◌+◌, ◌*◌, ◌^◌, ◌<◌, ◌≤◌, ◌++◌, length, IfOk, OnOk};
ghost use Rattle.line_rows.specs.Groups.{ShowsWhole, groups_of};
ghost use Rattle.line_rows.specs.Parts.{StandOnce, block_text};
ghost use Rattle.line_rows.specs.Row.{filled, in_window, pieces_in_window, row_of, shown_cell, whole_or_blank};

use cells::{Cell, cells_of};
use decoration::Style;
use pieces::Pieces;
use std::alloc::{AllocError, Global};
use std::sync::ledger::Ledger;
use steps::Steps;

/// A cell with its style.
#[derive(Drop)]
pub struct StyledCell {
    pub cell: Cell,
    pub style: Style,
}

/// The row that shows the columns from `left` to `left + cols - 1` of a block, where tabs stop at multiples of `tab`
/// columns, counted from column 0. A cluster that an edge cuts shows blanks in its style; after the text stand blanks in
/// the block's style. It raises `laid` by one. `Err`: out of memory.
pub fn row<L: Ledger>(
    alloc: Global,
    pieces: &Pieces,
    tab: u8,
    cols: u32,
    left: u128,
    laid: &mut Steps<L>,
) -> Result<Vec<StyledCell>, AllocError>
    requires positive { 0 < tab }
    requires small { tab ≤ 16 }
    requires few { cols ≤ 500 }
    ensures value { IfOk result (λ cells. cells.items ≡ row_of tab cols left pieces.now) }
    ensures length { IfOk result (λ cells. length cells.items ≡ cols) }
    ensures whole { IfOk result (λ cells. ShowsWhole (groups_of tab pieces.now.start pieces.now.pieces) cells.items) }
    ensures once { StandOnce (block_text pieces.now.pieces) (groups_of tab pieces.now.start pieces.now.pieces) }
    ensures counted { laid.new ≡ laid.old + 1 }
{
    laid.tick();
    let row = cells_of_row(alloc, pieces, tab, cols, left)?;
    Ok(row)
}

/// The cells of a row.
fn cells_of_row(
    alloc: Global,
    pieces: &Pieces,
    tab: u8,
    cols: u32,
    left: u128,
) -> Result<Vec<StyledCell>, AllocError>
    requires positive { 0 < tab }
    requires small { tab ≤ 16 }
    requires few { cols ≤ 500 }
    ensures { IfOk result (λ cells. cells.items ≡ row_of tab cols left pieces.now) }
{
    let mut row = Vec::new(alloc);
    push_pieces(alloc, &mut row, pieces, tab, cols, left)?;
    fill(&mut row, pieces.style(), cols)?;
    Ok(row)
}

/// Adds what the window shows of the pieces, up to its right edge.
fn push_pieces(
    alloc: Global,
    row: &mut Vec<StyledCell>,
    pieces: &Pieces,
    tab: u8,
    cols: u32,
    left: u128,
) -> Result<(), AllocError>
    requires positive { 0 < tab }
    requires small { tab ≤ 16 }
    ensures { OnOk result (row.new.items ≡ row.old.items ++ pieces_in_window tab left cols pieces.now.start pieces.now.pieces) }
{
    let mut at = pieces.start();
    for piece in pieces.list() {
        if at >= left && at - left >= cols as u128 {
            return Ok(());
        }
        let cells = cells_of(alloc, piece.text(), tab, at)?;
        let count = cells.len();
        push_part(row, cells, piece.style(), at, left, cols)?;
        at += count as u128;
    }
    Ok(())
}

/// Adds those of the cells, which begin in column `at`, that the window shows.
fn push_part(
    row: &mut Vec<StyledCell>,
    cells: Vec<Cell>,
    style: Style,
    at: u128,
    left: u128,
    cols: u32,
) -> Result<(), AllocError>
    requires { at + length cells.items < 2 ^ 128 }
    ensures { OnOk result (row.new.items ≡ row.old.items ++ in_window left cols style at cells.items) }
{
    let mut column = at;
    for cell in cells {
        push_shown(row, cell, style, column, left, cols)?;
        column += 1;
    }
    Ok(())
}

/// Adds the cell in `column`, if the window shows it.
fn push_shown(
    row: &mut Vec<StyledCell>,
    cell: Cell,
    style: Style,
    column: u128,
    left: u128,
    cols: u32,
) -> Result<(), AllocError>
    ensures { OnOk result (row.new.items ≡ row.old.items ++ shown_cell left cols style column cell) }
{
    if left <= column && column - left < cols as u128 {
        let cell = whole_or_blank(cell, cols, (column - left) as u32);
        row.push(StyledCell { cell, style })?;
    }
    Ok(())
}

/// The cell, or a blank where an edge of the window cuts its cluster.
fn whole_or_blank(cell: Cell, cols: u32, offset: u32) -> Cell
    ensures { result ≡ whole_or_blank cols offset cell }
{
    if cell.is_whole(cols, offset) {
        cell
    } else {
        Cell::blank()
    }
}

/// Adds blanks up to `cols` cells.
fn fill(row: &mut Vec<StyledCell>, style: Style, cols: u32) -> Result<(), AllocError>
    ensures { OnOk result (row.new.items ≡ filled cols style row.old.items) }
{
    let missing = (cols as usize).saturating_sub(row.len());
    for _ in 0..missing {
        row.push(StyledCell {
            cell: Cell::blank(),
            style,
        })?;
    }
    Ok(())
}
