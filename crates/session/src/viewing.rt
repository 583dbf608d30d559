// The commands of the window.
ghost use Rattle.std.specs.Prelude.{◌≡◌, ◌<◌, map, IfOk};
ghost use Rattle.screen.specs.Head.{ShowsHead};
ghost use Rattle.screen.specs.Screen.{row_cells, shown_count};
ghost use Rattle.term_bytes.specs.Shown.{shown_row};
ghost use Rattle.script.specs.Reading.{Gives};
ghost use Rattle.session.specs.Outcomes.{done_by};
ghost use Rattle.session.specs.Viewing.{screen, shown_cursor, shown_screen_of, summary, view, window_or};
ghost use Rattle.session.specs.Views.{view_of};
ghost use Rattle.viewport.specs.Window.{first_window};
ghost use Rattle.session.specs.State.{plain_session, plain_state};
ghost use Rattle.session.specs.PrivateSession.{IsPut};

use crate::outcome::Outcome;
use crate::putting::{shown_in, view};
use crate::session::Session;
use crate::started::started;
use listed::Listed;
use replies::{Answer, ShownCursor, ShownRun, ShownScreen, Summary};
use requests::ViewRequest;
use screen::{DrawnRow, Screen, shown_rows};
use script::{LineError, Refusal, WindowRefusal};
use state::State;
use std::alloc::{AllocError, Global};
use std::marker::Brand;
use std::sync::ledger::{Blank, Ledger};
use steps::Steps;
use term_bytes::shown_row;
use values::Meanings;
use viewport::{SizeError, Viewport};

/// A window of this size, or why there is none.
fn sized(request: ViewRequest) -> Result<Viewport, LineError>
    ensures { Gives (λ w. w) result (window_or (first_window request.rows request.cols)) }
{
    match Viewport::new(request.rows, request.cols) {
        Ok(window) => Ok(window),
        Err(SizeError::BadRows { n }) => {
            Err(LineError::Refused(Refusal::Window(WindowRefusal::BadRows { n })))
        }
        Err(SizeError::BadCols { n }) => {
            Err(LineError::Refused(Refusal::Window(WindowRefusal::BadCols { n })))
        }
    }
}

/// The command `view`.
pub(crate) fn view_as<M: Meanings>(
    session: &Session<M>,
    request: ViewRequest,
) -> Result<Outcome<State<M>>, LineError>
    ensures put { IfOk result (IsPut session.now) }
    ensures done { Gives (done_by (plain_session session.now)) result (view (plain_session session.now) request) }
{
    let state = started(session)?;
    let window = sized(request)?;
    Ok(Outcome::Viewed(shown_in(session, state, &window)?))
}

/// The runs of each row.
fn runs_in(alloc: Global, rows: &[DrawnRow]) -> Result<Listed<Listed<ShownRun>>, AllocError>
    ensures { IfOk result (λ shown. shown ≡ map shown_row (map row_cells rows.now)) }
{
    let mut shown = Vec::with_capacity(alloc, rows.len())?;
    for row in rows {
        shown.push(shown_row(alloc, row.cells())?)?;
    }
    Ok(Listed::new(shown))
}

/// What a screen shows.
fn shown_screen(alloc: Global, screen: &Screen) -> Result<ShownScreen, AllocError>
    ensures { IfOk result (λ shown. shown ≡ record { cursor = shown_cursor screen.now.cursor; rows = map shown_row (map row_cells screen.now.rows) }) }
{
    let cursor = screen.cursor();
    Ok(ShownScreen {
        cursor: ShownCursor {
            row: cursor.row,
            column: cursor.column,
        },
        rows: runs_in(alloc, screen.rows())?,
    })
}

/// What the window shows, drawn anew; the rows that are laid out are counted nowhere.
fn drawn<M: Meanings, L: Ledger>(
    session: &Session<M>,
    state: &State<M>,
    blank: Blank,
) -> Result<ShownScreen, AllocError>
    requires name { blank.name ≡ L.name }
    requires parts { blank.parts ≡ L.parts }
    requires some { 0 < blank.parts }
    requires shows { ShowsHead (view_of (plain_state state.now) session.now.window) }
    ensures { IfOk result (λ shown. shown ≡ shown_screen_of (view_of (plain_state state.now) session.now.window)) }
{
    let layers = session.keys.decorations(state);
    let tab = session.keys.tab_size(session.alloc, state)?;
    state.known();
    let mut laid: Steps<L> = Steps::new(blank);
    let mut screen = Screen::blank(session.alloc);
    screen.draw(&view(state, layers, tab, &session.window), &mut laid)?;
    shown_screen(session.alloc, &screen)
}

/// The command `screen`.
pub(crate) fn screen_of<M: Meanings>(session: &Session<M>) -> Result<Answer, LineError>
    ensures { Gives (λ a. a) result (screen (plain_session session.now)) }
{
    let state = started(session)?;
    Ok(Answer::Screen(drawn::<M, Brand>(session, state, Blank::new(1))?))
}

/// How many rows of the window show a block.
fn rows_in<M: Meanings>(session: &Session<M>, state: &State<M>) -> Result<u32, AllocError>
    ensures { IfOk result (λ rows. rows ≡ shown_count (view_of (plain_state state.now) session.now.window)) }
{
    let layers = session.keys.decorations(state);
    let tab = session.keys.tab_size(session.alloc, state)?;
    shown_rows(session.alloc, &view(state, layers, tab, &session.window))
}

/// The command `summary`.
pub(crate) fn summary_of<M: Meanings>(session: &Session<M>) -> Result<Answer, LineError>
    ensures { Gives (λ a. a) result (summary (plain_session session.now)) }
{
    let state = started(session)?;
    let rows = rows_in(session, state)?;
    Ok(Answer::Summary(Summary {
        length: state.doc().len(),
        lines: state.doc().lines(),
        rows: u64::from(rows),
        transactions: session.count,
    }))
}
