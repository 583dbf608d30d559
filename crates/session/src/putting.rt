// A new state in place of the one before.
ghost use Rattle.std.specs.Prelude.{◌≡◌, true, IfErr, IfOk, Ok, Result};
ghost use Rattle.facet_slots.specs.Agreement.{IsGrown};
ghost use Rattle.facet_slots.specs.Lent.{definitions};
ghost use Rattle.screen.specs.Head.{ShowsHead};
ghost use Rattle.screen.specs.Screen.{shown_view};
ghost use Rattle.facet_slots.specs.Stepping.{State as StateData};
ghost use Rattle.replies.specs.declared.answer.Answer.TheVariants.{Length};
ghost use Rattle.script.specs.Reading.{Gives};
ghost use Rattle.state.specs.declared.state_error.StateError.{StateError as StateErrorData};
ghost use Rattle.session.specs.Doing.{said};
ghost use Rattle.session.specs.Outcomes.{counted, done_by, put_started, put_stepped, shown_in};
ghost use Rattle.session.specs.PrivateSession.{Finds, IsPut};
ghost use Rattle.session.specs.Refused.{Refuses};
ghost use Rattle.session.specs.State.{plain_session, plain_state, window_of};
ghost use Rattle.session.specs.Views.{facet_in, tab_in, view_of};
ghost use Rattle.typed_keys.specs.Read.{layers_in};

use crate::outcome::{Next, Outcome};
use crate::refused::named;
use crate::session::Session;
use decoration::Layers;
use registry::{DECORATIONS, TAB_SIZE};
use replies::Answer;
use screen::{View, reveal};
use script::LineError;
use state::{State, StateError};
use std::alloc::AllocError;
use values::Meanings;
use viewport::Viewport;

/// What a window sees of a state: the state's own, by these decorations and this tab size, which are the state's.
pub(crate) fn view<'a, M: Meanings>(
    state: &'a State<M>,
    layers: &'a Layers,
    tab: u8,
    window: &'a Viewport,
) -> View<'a>
    requires layers { layers.now ≡ layers_in (facet_in (plain_state state.now) DECORATIONS) }
    requires tab { tab ≡ tab_in (facet_in (plain_state state.now) TAB_SIZE) }
    ensures { shown_view result ≡ view_of (plain_state state.now) window.now }
{
    View {
        doc: state.doc(),
        selection: state.selection(),
        layers,
        tab,
        window,
    }
}

/// The window moved as little as it takes to show the main range's head in a state.
#[inline(always)]
pub(crate) fn shown_in<M: Meanings>(
    session: &Session<M>,
    state: &State<M>,
    window: &Viewport,
) -> Result<Viewport, AllocError>
    ensures moved { IfOk result (λ moved. moved ≡ shown_in (plain_state state.now) window.now) }
    ensures shows { IfOk result (λ moved. ShowsHead (view_of (plain_state state.now) moved)) }
{
    let layers = session.keys.decorations(state);
    let tab = session.keys.tab_size(session.alloc, state)?;
    state.known();
    reveal(session.alloc, &view(state, layers, tab, window))
}

/// A window of the same size at the first block and column.
fn rewound(window: &Viewport) -> Viewport
    ensures { result ≡ window_of window.now.rows window.now.cols }
{
    match Viewport::new(window.rows(), window.cols()) {
        Ok(window) => window,
        Err(_) => unreachable!(),
    }
}

/// A count of transactions goes on by one.
fn counted(count: u64) -> u64
    ensures { result ≡ counted count }
{
    count.saturating_add(1)
}

/// The state that takes the place of the one before, with this count and this window, which is moved; or its refusal. The only
/// other error is out of memory.
#[inline(always)]
fn next<M: Meanings>(
    session: &Session<M>,
    state: Result<State<M>, StateError>,
    count: u64,
    window: &Viewport,
) -> Result<Next<State<M>>, LineError>
    ensures state { IfOk result (λ next. state ≡ Ok next.state) }
    ensures count { IfOk result (λ next. next.count ≡ count) }
    ensures window { IfOk result (λ next. next.window ≡ shown_in (plain_state next.state) window.now) }
    ensures shows { IfOk result (λ next. ShowsHead (view_of (plain_state next.state) next.window)) }
    ensures refused { IfErr result (λ error. IfErr state (λ cause. Refuses session.now.world.names cause error)) }
    ensures made { IfErr result (λ error. IfOk state (λ new. error ≡ LineError.NoMemory)) }
{
    match state {
        Err(error) => Err(LineError::Refused(named(session.alloc, &session.names, error)?)),
        Ok(state) => {
            let window = shown_in(session, &state, window)?;
            Ok(Next {
                state,
                count,
                window,
            })
        }
    }
}

/// A first state, or its refusal. The only other error is out of memory.
pub(crate) fn started_as<M: Meanings>(
    session: &Session<M>,
    state: Result<State<M>, StateError>,
) -> Result<Outcome<State<M>>, LineError>
    requires grown { IfOk state (λ s. IsGrown s.setup.defs (definitions session.now.world.declared)) }
    ensures put { IfOk result (IsPut session.now) }
    ensures done { (out : Result StateData StateErrorData) → Finds out state → Gives (done_by (plain_session session.now)) result (put_started (plain_session session.now) out) }
{
    let next = next(session, state, 0, &rewound(&session.window))?;
    Ok(Outcome::Changed(Answer::Length(next.state.doc().len()), next))
}

/// The state after an update, or its refusal. The only other error is out of memory.
#[inline(always)]
pub(crate) fn updated_to<M: Meanings>(
    session: &Session<M>,
    state: Result<State<M>, StateError>,
) -> Result<Outcome<State<M>>, LineError>
    requires grown { IfOk state (λ s. IsGrown s.setup.defs (definitions session.now.world.declared)) }
    ensures put { IfOk result (IsPut session.now) }
    ensures done { (out : Result StateData StateErrorData) → Finds out state → Gives (done_by (plain_session session.now)) result (put_stepped Length (plain_session session.now) out) }
{
    let next = next(session, state, counted(session.count), &session.window)?;
    Ok(Outcome::Changed(Answer::Length(next.state.doc().len()), next))
}

/// The state after a command that did something, or its refusal. The only other error is out of memory.
pub(crate) fn done_to<M: Meanings>(
    session: &Session<M>,
    state: Result<State<M>, StateError>,
) -> Result<Outcome<State<M>>, LineError>
    requires grown { IfOk state (λ s. IsGrown s.setup.defs (definitions session.now.world.declared)) }
    ensures put { IfOk result (IsPut session.now) }
    ensures done { (out : Result StateData StateErrorData) → Finds out state → Gives (done_by (plain_session session.now)) result (put_stepped (said true) (plain_session session.now) out) }
{
    let next = next(session, state, counted(session.count), &session.window)?;
    let length = next.state.doc().len();
    Ok(Outcome::Changed(Answer::Done { done: true, length }, next))
}
