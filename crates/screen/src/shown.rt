// How many rows of the window show a block.
ghost use Rattle.std.specs.Prelude.{◌≡◌, ◌+◌, ◌-◌, ◌<◌, ◌^◌, max, min, IfOk};
ghost use Rattle.screen.specs.Screen.{shown_count, shown_view};

use crate::view::View;
use line_rows::Blocks;
use std::alloc::{AllocError, Global};
use viewport::Viewport;

/// How many rows of the view's window show a block; the rows past the last block show none. `Err`: out of memory.
pub fn shown_rows(alloc: Global, view: &View<'_>) -> Result<u32, AllocError>
    ensures { IfOk result (λ rows. rows ≡ shown_count (shown_view view.now)) }
{
    let blocks = Blocks::of(alloc, view.doc, view.layers)?;
    Ok(rows_within(view.window, blocks.count()))
}

/// How many rows of the window have the number of one of so many blocks, which are numbered from 1.
fn rows_within(window: &Viewport, count: u64) -> u32
    requires { 0 < count }
    ensures { result ≡ min (window.now.top + window.now.rows) (count + 1) - max window.now.top 1 }
{
    let count = u128::from(count);
    let top = window.top();
    if top > count {
        return 0;
    }
    let end = (top + u128::from(window.rows())).min(count + 1);
    (end - top.max(1)) as u32
}
