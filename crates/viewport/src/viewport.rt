ghost use Rattle.std.specs.Prelude.{◌≡◌, ◌+◌, ◌-◌, ◌<◌, ◌≤◌, ◌^◌};
ghost use Rattle.viewport.specs.Window.{first_window};
ghost use Rattle.viewport.specs.declared.viewport.TheConstants.{MAX_SIZE};
ghost use Rattle.viewport.specs.Reveal.{IsNearest, revealed};

use crate::size_error::SizeError;
use std::marker::Model;

/// The greatest number of rows, and of columns.
pub const MAX_SIZE: u32 = 500;

/// A window of 1 to 500 rows and columns. Its first row shows block `top`, which counts from 1, and its first column
/// is column `left` of each row, which counts from 0.
#[derive(Drop)]
pub struct Viewport {
    top: u128,
    left: u128,
    rows: u32,
    cols: u32,
}

impl Model for Viewport {
    ghost use Rattle.viewport.specs.Window.{Window, IsWindow};

    ghost Value = { Window };

    ghost view = { λ v. record { top = v.top; left = v.left; rows = v.rows; cols = v.cols } };

    ghost invariant = { λ v. IsWindow (record { top = v.top; left = v.left; rows = v.rows; cols = v.cols }) };
}

impl Viewport {
    /// A window of this size at block 1 and column 0. `Err`: the number of rows, or else that of columns, is outside 1
    /// to 500.
    pub fn new(rows: u32, cols: u32) -> Result<Viewport, SizeError>
        ensures { result ≡ first_window rows cols }
    {
        if rows == 0 || rows > MAX_SIZE {
            return Err(SizeError::BadRows { n: rows });
        }
        if cols == 0 || cols > MAX_SIZE {
            return Err(SizeError::BadCols { n: cols });
        }
        Ok(Viewport {
            top: 1,
            left: 0,
            rows,
            cols,
        })
    }

    /// The block that the first row shows, from 1.
    pub fn top(&self) -> u128
        ensures { result ≡ self.now.top }
    {
        self.top
    }

    /// The first column that is shown, from 0.
    pub fn left(&self) -> u128
        ensures { result ≡ self.now.left }
    {
        self.left
    }

    /// How many rows there are.
    pub fn rows(&self) -> u32
        ensures value { result ≡ self.now.rows }
        ensures some { 1 ≤ result }
        ensures few { result ≤ MAX_SIZE }
    {
        self.rows
    }

    /// How many columns there are.
    pub fn cols(&self) -> u32
        ensures value { result ≡ self.now.cols }
        ensures some { 1 ≤ result }
        ensures few { result ≤ MAX_SIZE }
    {
        self.cols
    }

    /// The same window once more.
    pub fn copy(&self) -> Viewport
        ensures { result ≡ self.now }
    {
        Viewport {
            top: self.top,
            left: self.left,
            rows: self.rows,
            cols: self.cols,
        }
    }

    /// Moves the window to the nearest place that shows a block and the columns from `col` to
    /// `col + width - 1` (EditorView.scrollIntoView, with y and x nearest).
    pub fn reveal(&mut self, block: u128, col: u128, width: u32)
        requires some { 1 ≤ width }
        requires fits { width ≤ self.old.cols }
        ensures nearest { IsNearest self.old self.new block col width }
        ensures value { self.new ≡ revealed self.old block col width }
    {
        let rows = u128::from(self.rows);
        if block < self.top {
            self.top = block;
        } else if block - self.top >= rows {
            self.top = block - rows + 1;
        }
        let room = u128::from(self.cols - width);
        if col < self.left {
            self.left = col;
        } else if col - self.left > room {
            self.left = col - room;
        }
    }
}
