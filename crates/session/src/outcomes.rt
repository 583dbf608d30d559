// What a request does to a session.
ghost use Rattle.std.specs.Prelude.{◌≡◌, true, IfOk};
ghost use Rattle.cm_outside.specs.Files.{Files};
ghost use Rattle.script.specs.Reading.{Gives};
ghost use Rattle.values.specs.Whole.{IsWhole};
ghost use Rattle.session.specs.Asked.{map_answer};
ghost use Rattle.session.specs.Outcomes.{answered, done_by};
ghost use Rattle.session.specs.PrivateSession.{IsPut, asks, is_lent};
ghost use Rattle.session.specs.Session.{act};
ghost use Rattle.session.specs.State.{plain_session};

use crate::asked::{selection_of, text_of};
use crate::doing::do_command;
use crate::get::get;
use crate::outcome::Outcome;
use crate::session::Session;
use crate::start::start;
use crate::viewing::{screen_of, summary_of, view_as};
use mapping::mapped;
use replies::Answer;
use requests::Request;
use script::{LineError, MapRequest};
use state::State;
use std::alloc::Global;
use values::{Kit, Meanings};

/// The command `map`, which needs no state.
fn map(alloc: Global, request: &MapRequest) -> Result<Answer, LineError>
    ensures { Gives (λ a. a) result (map_answer request.now) }
{
    Ok(Answer::Mapped(mapped(alloc, request)?))
}

/// What a request does that asks for something and changes nothing, or its first refusal. The only other error is out of memory.
fn answer_of<M: Meanings>(
    session: &Session<M>,
    kit: &Kit<M>,
    request: &Request,
) -> Result<Answer, LineError>
    requires whole { IsWhole M.rules kit.now }
    requires asks { asks request.now ≡ true }
    ensures { (files : Files) → Gives (answered (plain_session session.now)) result (act M.rules request.now (plain_session session.now) files) }
{
    match request {
        Request::Text => text_of(session),
        Request::Selection => selection_of(session),
        Request::Get(name) => get(session, kit, name),
        Request::Map(request) => map(session.alloc, request),
        Request::Screen => screen_of(session),
        Request::Summary => summary_of(session),
        _ => unreachable!(),
    }
}

/// What a request does that is only lent, or its first refusal. The only other error is out of memory.
pub(crate) fn outcome_of<M: Meanings>(
    session: &Session<M>,
    kit: &Kit<M>,
    request: &Request,
) -> Result<Outcome<State<M>>, LineError>
    requires whole { IsWhole M.rules kit.now }
    requires lent { is_lent request.now ≡ true }
    ensures put { IfOk result (IsPut session.now) }
    ensures done { (files : Files) → Gives (done_by (plain_session session.now)) result (act M.rules request.now (plain_session session.now) files) }
{
    match request {
        Request::Start(request) => start(session, kit, request),
        Request::Do(command) => do_command(session, kit, command),
        Request::View(size) => view_as(session, *size),
        other => Ok(Outcome::Answered(answer_of(session, kit, other)?)),
    }
}
