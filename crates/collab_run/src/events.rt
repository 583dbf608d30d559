ghost use Rattle.std.specs.Prelude.{◌≡◌, IfOk};
ghost use Rattle.collab.specs.Conditions.{IsEventOf};
ghost use Rattle.script.specs.Reading.{Gives};
ghost use Rattle.collab_run.specs.Playing.{client_answer, happened, in_order, local, publish, send, state, told};

use crate::naming::{begun, client_in, client_of};
use crate::outcome::Outcome;
use crate::refusing::line_error;
use change_set::{Change, InsertedText};
use cm_plain::Str;
use collab::{Client, Event, World};
use listed::Listed;
use replies::Answer;
use script::{LineError, refused};
use std::alloc::{AllocError, Global};

/// The world after an event. The only other error than its refusal is out of memory, which also comes where there are too many
/// updates, messages or local changes to be counted.
#[tactic(auto, unfolding(crate::specs::Playing::happened))]
pub(crate) fn happened(world: &World, event: &Event) -> Result<World, LineError>
    requires { IsEventOf world.now event.now }
    ensures { Gives (λ w. w) result (happened world.now event.now) }
{
    if !world.has_room(event) {
        return Err(LineError::NoMemory);
    }
    let mut next = world.try_copy()?;
    match next.step(event) {
        Ok(()) => Ok(next),
        Err(error) => Err(line_error(error)),
    }
}

fn client_answer(client: &Client) -> Result<Answer, AllocError>
    ensures { IfOk result (λ a. a ≡ client_answer client.now) }
{
    let text = InsertedText::of(client.doc().try_copy()?);
    Ok(Answer::Client {
        pending: client.pending().len() as u64,
        text,
        version: client.version(),
    })
}

/// A new world, which is answered by what the client of a name is then.
#[tactic(auto, unfolding(crate::specs::Playing::told))]
pub(crate) fn told(world: World, name: &Str) -> Result<Outcome, LineError>
    ensures { Gives (λ o. o) result (told name.now world) }
{
    let answer = client_answer(client_in(&world, name)?)?;
    Ok(Outcome::Changed(answer, world))
}

/// The command `local`: a client changes its text.
#[tactic(auto, unfolding(crate::specs::Playing::local))]
pub(crate) fn local(
    world: &Option<World>,
    name: &Str,
    changes: Listed<Change>,
) -> Result<Outcome, LineError>
    ensures { Gives (λ o. o) result (local name.now changes world.now) }
{
    let (world, client) = client_of(world, name)?;
    let next = happened(world, &Event::Local { client, changes })?;
    told(next, name)
}

/// The command `send`: the next message is all that a client has unconfirmed.
#[tactic(auto, unfolding(crate::specs::Playing::send))]
pub(crate) fn send(world: &Option<World>, name: &Str) -> Result<Outcome, LineError>
    ensures { Gives (λ o. o) result (send name.now world.now) }
{
    let (world, client) = client_of(world, name)?;
    let number = world.messages() as u32;
    let next = happened(world, &Event::Send { client })?;
    Ok(Outcome::Changed(Answer::Message(number), next))
}

/// Positions of the authority's list, in order.
fn in_order(alloc: Global, from: u32, to: u32, count: u32) -> Result<(), LineError>
    ensures { Gives (λ x. x) result (in_order from to count) }
{
    if from > to {
        return refused(alloc, "from");
    }
    if to > count {
        return refused(alloc, "to");
    }
    Ok(())
}

/// The command `publish`: the next message is the authority's updates of some positions.
#[tactic(auto, unfolding(crate::specs::Playing::publish))]
pub(crate) fn publish(
    alloc: Global,
    world: &Option<World>,
    from: u32,
    to: u32,
) -> Result<Outcome, LineError>
    ensures { Gives (λ o. o) result (publish from to world.now) }
{
    let world = begun(world)?;
    in_order(alloc, from, to, world.authority().version())?;
    let number = world.messages() as u32;
    let next = happened(world, &Event::Publish { from, to })?;
    Ok(Outcome::Changed(Answer::Message(number), next))
}

/// The command `state`: the authority's text and version.
#[tactic(auto, unfolding(crate::specs::Playing::state))]
pub(crate) fn state(world: &Option<World>) -> Result<Outcome, LineError>
    ensures { Gives (λ o. o) result (state world.now) }
{
    let authority = begun(world)?.authority();
    let text = InsertedText::of(authority.doc().try_copy()?);
    Ok(Outcome::Answered(Answer::Authority {
        text,
        version: authority.version(),
    }))
}
