ghost use Rattle.std.specs.Prelude.{◌<◌, IfOk, length};
ghost use Rattle.script.specs.Reading.{Gives};
ghost use Rattle.collab_run.specs.Playing.{deliver, deliver_push, deliver_updates, kind_of};

use crate::events::{happened, told};
use crate::naming::{begun, client_of};
use crate::outcome::Outcome;
use cm_plain::Str;
use collab::{Event, World};
use replies::Answer;
use script::{LineError, refused};
use std::alloc::Global;

/// Whether a message is a Push, where it was sent.
#[tactic(auto, unfolding(crate::specs::Playing::kind_of))]
fn kind_of(alloc: Global, world: &World, message: u32) -> Result<bool, LineError>
    ensures kind { Gives (λ x. x) result (kind_of message world.now) }
    ensures sent { IfOk result (λ x. message < length world.now.messages) }
{
    if message as usize >= world.messages() {
        return refused(alloc, "message");
    }
    Ok(world.is_push(message))
}

#[tactic(auto, unfolding(crate::specs::Playing::deliver_push))]
fn deliver_push(alloc: Global, world: &Option<World>, message: u32) -> Result<Outcome, LineError>
    ensures { Gives (λ o. o) result (deliver_push message world.now) }
{
    let world = begun(world)?;
    if !kind_of(alloc, world, message)? {
        return refused(alloc, "client");
    }
    let event = Event::Deliver {
        message,
        client: None,
    };
    let next = happened(world, &event)?;
    Ok(Outcome::Changed(Answer::Version(next.authority().version()), next))
}

#[tactic(auto, unfolding(crate::specs::Playing::deliver_updates))]
fn deliver_updates(
    alloc: Global,
    world: &Option<World>,
    message: u32,
    name: &Str,
) -> Result<Outcome, LineError>
    ensures { Gives (λ o. o) result (deliver_updates message name.now world.now) }
{
    let (world, client) = client_of(world, name)?;
    if kind_of(alloc, world, message)? {
        return refused(alloc, "client");
    }
    let event = Event::Deliver {
        message,
        client: Some(client),
    };
    told(happened(world, &event)?, name)
}

/// The command `deliver`: a message is delivered to the client of a name, if one is given, or else to the authority.
pub(crate) fn deliver(
    alloc: Global,
    world: &Option<World>,
    message: u32,
    name: &Option<Str>,
) -> Result<Outcome, LineError>
    ensures { Gives (λ o. o) result (deliver message name.now world.now) }
{
    match name {
        None => deliver_push(alloc, world, message),
        Some(name) => deliver_updates(alloc, world, message, name),
    }
}
