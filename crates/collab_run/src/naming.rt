ghost use Rattle.std.specs.Prelude.{◌<◌, IfOk, length};
ghost use Rattle.script.specs.Reading.{Gives};
ghost use Rattle.collab_run.specs.Playing.{begun_world, client_in, client_of, clients_of, place_of, unknown};

use cm_plain::Str;
use collab::{Client, World};
use script::{LineError, Refusal};

/// The world, if one was begun.
pub(crate) fn begun(world: &Option<World>) -> Result<&World, LineError>
    ensures { Gives (λ w. w.now) result (begun_world world.now) }
{
    match world {
        Some(world) => Ok(world),
        None => Err(LineError::Refused(Refusal::NoSession)),
    }
}

fn unknown<T>(name: &Str) -> Result<T, LineError>
    ensures { Gives (λ x. x) result (unknown name.now) }
{
    Err(LineError::Refused(Refusal::UnknownName {
        name: name.try_copy()?,
    }))
}

/// The place of the client of a name. A line has too few bytes for 2 ^ 32 clients, for which there is no memory.
#[tactic(auto, unfolding(crate::specs::Playing::place_of))]
fn place_of(world: &World, name: &Str) -> Result<u32, LineError>
    ensures place { Gives (λ x. x) result (place_of name.now world.now.clients) }
    ensures within { IfOk result (λ place. place < length world.now.clients) }
{
    match world.place_of(name) {
        Some(place) if place <= u32::MAX as usize => Ok(place as u32),
        Some(_) => Err(LineError::NoMemory),
        None => unknown(name),
    }
}

/// The place of the client of a name in the world, if one was begun.
#[tactic(auto, unfolding(crate::specs::Playing::place_of))]
fn place_in(world: &Option<World>, name: &Str) -> Result<u32, LineError>
    ensures place { Gives (λ x. x) result (place_of name.now (clients_of world.now)) }
    ensures within { IfOk result (λ place. place < length (clients_of world.now)) }
{
    match world {
        Some(world) => place_of(world, name),
        None => unknown(name),
    }
}

/// The client of a name.
#[tactic(auto, unfolding(crate::specs::Playing::client_in))]
pub(crate) fn client_in<'w>(world: &'w World, name: &Str) -> Result<&'w Client, LineError>
    ensures { Gives (λ c. c.now) result (client_in name.now world.now) }
{
    let place = place_of(world, name)?;
    Ok(world.client(place))
}

/// The world, and the place in it of the client of a name.
#[tactic(auto, unfolding(crate::specs::Playing::client_of))]
pub(crate) fn client_of<'w>(
    world: &'w Option<World>,
    name: &Str,
) -> Result<(&'w World, u32), LineError>
    ensures found { Gives (λ at. (at.0.now, at.1)) result (client_of name.now world.now) }
    ensures within { IfOk result (λ at. at.1 < length at.0.now.clients) }
{
    let place = place_in(world, name)?;
    let world = begun(world)?;
    Ok((world, place))
}
