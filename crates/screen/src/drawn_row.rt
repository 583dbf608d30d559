ghost use Rattle.std.specs.Prelude.{◌≡◌, ◌+◌, ◌<◌, ◌≤◌, true, IsTrue, IfOk};
ghost use Rattle.line_rows.specs.Row.{row_of};
ghost use Rattle.screen.specs.Screen.{RowKey, same_key};

use line_rows::{Pieces, StyledCell, row};
use std::alloc::{AllocError, Global};
use std::marker::Model;
use std::rc::Rc;
use std::sync::ledger::Ledger;
use steps::Steps;

/// A row of the window: its cells, and the pieces, the tab size and the columns that they were laid out from.
#[derive(Drop)]
pub struct DrawnRow {
    pieces: Pieces,
    tab: u8,
    cols: u32,
    left: u128,
    cells: Rc<Vec<StyledCell>>,
}

impl Model for DrawnRow {
    ghost use Rattle.std.specs.Prelude.{◌≡◌};
    ghost use Rattle.line_rows.specs.Row.{row_of};
    ghost use Rattle.screen.specs.Screen.{RowKey};

    ghost Value = { RowKey };

    ghost view = { λ r. record { pieces = r.pieces; tab = r.tab; cols = r.cols; left = r.left } };

    ghost invariant = { λ r. r.cells.value.items ≡ row_of r.tab r.cols r.left r.pieces };
}

impl DrawnRow {
    /// A row laid out anew; it raises `laid` by one. `Err`: out of memory.
    pub(crate) fn lay<L: Ledger>(
        alloc: Global,
        pieces: Pieces,
        tab: u8,
        cols: u32,
        left: u128,
        laid: &mut Steps<L>,
    ) -> Result<DrawnRow, AllocError>
        requires positive { 0 < tab }
        requires small { tab ≤ 16 }
        requires few { cols ≤ 500 }
        ensures value { IfOk result (λ row. row ≡ record { pieces = pieces; tab = tab; cols = cols; left = left }) }
        ensures counted { laid.new ≡ laid.old + 1 }
    {
        let cells = row(alloc, &pieces, tab, cols, left, laid)?;
        let cells = Rc::new(alloc, cells)?;
        Ok(DrawnRow {
            pieces,
            tab,
            cols,
            left,
            cells,
        })
    }

    /// The same row, of equal pieces. `Err`: out of memory.
    pub(crate) fn keep(&self, pieces: Pieces) -> Result<DrawnRow, AllocError>
        requires { IsTrue (same_key self.now (record self.now { pieces = pieces })) }
        ensures { IfOk result (λ row. row ≡ record self.now { pieces = pieces }) }
    {
        let cells = self.cells.clone()?;
        Ok(DrawnRow {
            pieces,
            tab: self.tab,
            cols: self.cols,
            left: self.left,
            cells,
        })
    }

    /// Whether the row shows these pieces with this tab size and these columns.
    pub(crate) fn shows(&self, pieces: &Pieces, tab: u8, cols: u32, left: u128) -> bool
        ensures { result ≡ same_key self.now (record { pieces = pieces.now; tab = tab; cols = cols; left = left }) }
    {
        self.tab == tab && self.cols == cols && self.left == left && self.pieces.same(pieces)
    }

    /// The cells of the row.
    pub fn cells(&self) -> &[StyledCell]
        ensures { result.now ≡ row_of self.now.tab self.now.cols self.now.left self.now.pieces }
    {
        self.cells.as_slice()
    }
}
