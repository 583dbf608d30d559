// Frames: the bytes that show a state's window in a terminal.
ghost use Rattle.std.specs.Prelude.{◌≡◌, ◌<◌, map, IfOk, string_bytes};
ghost use Rattle.line_rows.specs.Run.{runs_of};
ghost use Rattle.screen.specs.Head.{ShowsHead};
ghost use Rattle.screen.specs.Screen.{row_cells};
ghost use Rattle.session.specs.Frames.{bytes_of, frame_in, items_of};
ghost use Rattle.session.specs.State.{plain_state};
ghost use Rattle.session.specs.Views.{view_of};

use crate::putting::view;
use crate::session::Session;
use line_rows::{Run, runs_of};
use screen::{DrawnRow, Screen};
use state::State;
use std::alloc::{AllocError, Global};
use std::marker::Brand;
use std::sync::ledger::{Blank, Ledger};
use steps::Steps;
use term_bytes::frame;
use values::Meanings;
use viewport::Viewport;

/// The runs of each row.
fn all_runs(alloc: Global, rows: &[DrawnRow]) -> Result<Vec<Vec<Run>>, AllocError>
    ensures { IfOk result (λ all. map items_of all.items ≡ map runs_of (map row_cells rows.now)) }
{
    let mut all = Vec::with_capacity(alloc, rows.len())?;
    for row in rows {
        all.push(runs_of(alloc, row.cells())?)?;
    }
    Ok(all)
}

/// The frame of what a screen shows.
fn screen_frame(alloc: Global, screen: &Screen) -> Result<String, AllocError>
    ensures { IfOk result (λ text. string_bytes text ≡ bytes_of (map runs_of (map row_cells screen.now.rows)) screen.now.cursor) }
{
    let runs = all_runs(alloc, screen.rows())?;
    frame(alloc, runs.as_slice(), screen.cursor())
}

/// Draws a state in a window on a screen, and gives the frame; the rows that are laid out are counted nowhere.
fn drawn<M: Meanings, L: Ledger>(
    session: &Session<M>,
    screen: &mut Screen,
    state: &State<M>,
    window: &Viewport,
    blank: Blank,
) -> Result<String, AllocError>
    requires name { blank.name ≡ L.name }
    requires parts { blank.parts ≡ L.parts }
    requires some { 0 < blank.parts }
    requires shows { ShowsHead (view_of (plain_state state.now) window.now) }
    ensures { IfOk result (λ text. string_bytes text ≡ frame_in (view_of (plain_state state.now) window.now)) }
{
    let layers = session.keys.decorations(state);
    let tab = session.keys.tab_size(session.alloc, state)?;
    state.known();
    let mut laid: Steps<L> = Steps::new(blank);
    screen.draw(&view(state, layers, tab, window), &mut laid)?;
    screen_frame(session.alloc, screen)
}

/// The frame of a state in a window, drawn on a screen that keeps the rows which didn't change since it was drawn last. `Err`: out
/// of memory.
pub(crate) fn state_frame<M: Meanings>(
    session: &Session<M>,
    screen: &mut Screen,
    state: &State<M>,
    window: &Viewport,
) -> Result<String, AllocError>
    requires { ShowsHead (view_of (plain_state state.now) window.now) }
    ensures { IfOk result (λ text. string_bytes text ≡ frame_in (view_of (plain_state state.now) window.now)) }
{
    drawn::<M, Brand>(session, screen, state, window, Blank::new(1))
}
