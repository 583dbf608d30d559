use crate::rows::{Row, are};
use change_set::{Change, ChangeSet, InsertedText};
use collab::{CollabError, Event, World};
use line_tree::{Text, cut_len};
use listed::Listed;
use std::alloc::{AllocError, Global};

/// What happens in a world, or what is to hold in it.
#[derive(Clone, Copy, Drop)]
pub(crate) enum Step {
    /// A client replaces a range by a text.
    Local(u32, u32, u32, &'static [char]),
    /// A client puts 8,388,608 characters in at the start.
    Long(u32),
    /// A client makes no change, by a set over a text of a length.
    Set(u32, u32),
    /// A client sends.
    Send(u32),
    /// Updates of these positions are published.
    Publish(u32, u32),
    /// A message is delivered to the authority.
    Push(u32),
    /// A message is delivered to a client.
    Take(u32, u32),
    /// A client has a name, a text, a count of local changes and a version.
    Has(u32, char, &'static [char], u32, u32),
    /// A client has these updates unconfirmed, and sends them.
    Sends(u32, &'static [Row]),
    /// The authority has these updates at the positions from one to another.
    Slice(u32, u32, &'static [Row]),
    /// The authority has a text and a version.
    Latest(&'static [char], u32),
}

/// What came of it.
#[derive(Clone, Copy, PartialEq, Drop)]
pub(crate) enum Seen {
    /// It happened, or it holds.
    Done,
    /// It was refused: a change with this index has this range in a text of this length.
    BadRange(usize, u32, u32, u32),
    /// It was refused: the text has the first length, and a set is over the second.
    LengthMismatch(u32, u32),
    /// It was refused: a text would have the first length, and the second is allowed.
    TooLong(u64, u32),
    /// It was refused: the authority is at this version.
    Stale(u32),
    /// It was refused: the updates begin at this position, and the client is at this version.
    Ahead(u32, u32),
    /// It doesn't hold, or it can't happen.
    Not,
}

/// A text of some characters, which are few.
pub(crate) fn text(alloc: Global, characters: &[char]) -> Result<Text, AllocError> {
    if cut_len(characters) > 100 {
        return Text::empty(alloc);
    }
    Text::of(alloc, characters)
}

pub(crate) fn outcome(stepped: Result<(), CollabError>) -> Result<Seen, AllocError> {
    match stepped {
        Ok(()) => Ok(Seen::Done),
        Err(CollabError::Stale { version }) => Ok(Seen::Stale(version)),
        Err(CollabError::Ahead { from, version }) => Ok(Seen::Ahead(from, version)),
        Err(
            CollabError::BadRange {
                index,
                from,
                to,
                len,
            },
        ) => Ok(Seen::BadRange(index, from, to, len)),
        Err(CollabError::LengthMismatch { want, have }) => Ok(Seen::LengthMismatch(want, have)),
        Err(CollabError::TooLong { len, max }) => Ok(Seen::TooLong(len, max)),
        Err(CollabError::NoMemory) => Err(AllocError),
    }
}

/// The change that replaces a range by a text.
fn replacing(alloc: Global, from: u32, to: u32, text: Text) -> Result<Listed<Change>, AllocError> {
    let insert = InsertedText::of(text);
    let mut changes = Listed::empty(alloc);
    changes.push(Change::Span { from, to, insert })?;
    Ok(changes)
}

/// The set that changes nothing of a text of a length.
fn keeping(alloc: Global, len: u32) -> Result<Listed<Change>, AllocError> {
    let set = ChangeSet::empty(alloc, len)?;
    let mut changes = Listed::empty(alloc);
    changes.push(Change::Set(set))?;
    Ok(changes)
}

/// A text of 8,388,608 characters.
pub(crate) fn long(alloc: Global) -> Result<Text, AllocError> {
    let mut all = text(alloc, &['x'])?;
    for _ in 0..23u32 {
        if all.len() > 4_194_304 {
            return Ok(all);
        }
        let twice = all.append(&all)?;
        all = twice;
    }
    Ok(all)
}

fn local(world: &mut World, client: u32, changes: Listed<Change>) -> Result<Seen, AllocError> {
    if client as usize >= world.clients() {
        return Ok(Seen::Not);
    }
    let event = Event::Local { client, changes };
    if !world.has_room(&event) {
        return Ok(Seen::Not);
    }
    outcome(world.step(&event))
}

fn replace(
    alloc: Global,
    world: &mut World,
    client: u32,
    from: u32,
    to: u32,
    characters: &[char],
) -> Result<Seen, AllocError> {
    let changes = replacing(alloc, from, to, text(alloc, characters)?)?;
    local(world, client, changes)
}

fn lengthen(alloc: Global, world: &mut World, client: u32) -> Result<Seen, AllocError> {
    let changes = replacing(alloc, 0, 0, long(alloc)?)?;
    local(world, client, changes)
}

fn keep(alloc: Global, world: &mut World, client: u32, len: u32) -> Result<Seen, AllocError> {
    let changes = keeping(alloc, len)?;
    local(world, client, changes)
}

fn send(world: &mut World, client: u32) -> Result<Seen, AllocError> {
    let event = Event::Send { client };
    if client as usize >= world.clients() || !world.has_room(&event) {
        return Ok(Seen::Not);
    }
    outcome(world.step(&event))
}

fn publish(world: &mut World, from: u32, to: u32) -> Result<Seen, AllocError> {
    let event = Event::Publish { from, to };
    if from > to || to > world.authority().version() || !world.has_room(&event) {
        return Ok(Seen::Not);
    }
    outcome(world.step(&event))
}

fn push(world: &mut World, message: u32) -> Result<Seen, AllocError> {
    let event = Event::Deliver {
        message,
        client: None,
    };
    if message as usize >= world.messages() || !world.has_room(&event) {
        return Ok(Seen::Not);
    }
    if !world.is_push(message) {
        return Ok(Seen::Not);
    }
    outcome(world.step(&event))
}

fn take(world: &mut World, message: u32, client: u32) -> Result<Seen, AllocError> {
    let event = Event::Deliver {
        message,
        client: Some(client),
    };
    if message as usize >= world.messages() || client as usize >= world.clients() {
        return Ok(Seen::Not);
    }
    if world.is_push(message) || !world.has_room(&event) {
        return Ok(Seen::Not);
    }
    outcome(world.step(&event))
}

fn holds(is_so: bool) -> Seen {
    if is_so { Seen::Done } else { Seen::Not }
}

fn has(
    world: &World,
    client: u32,
    name: char,
    characters: &[char],
    made: u32,
    version: u32,
) -> Result<Seen, AllocError> {
    if client as usize >= world.clients() {
        return Ok(Seen::Not);
    }
    let client = world.client(client);
    let found = client.doc().chars()?;
    Ok(holds(
        found.as_slice() == characters
            && client.name().chars() == [name].as_slice()
            && client.made() == made
            && client.version() == version,
    ))
}

fn sends(world: &World, client: u32, rows: &[Row]) -> Result<Seen, AllocError> {
    if client as usize >= world.clients() {
        return Ok(Seen::Not);
    }
    let client = world.client(client);
    let sent = client.sendable()?;
    Ok(holds(are(client.pending(), rows) && are(sent.as_slice(), rows)))
}

fn slice(world: &World, from: u32, to: u32, rows: &[Row]) -> Result<Seen, AllocError> {
    if from > to || to > world.authority().version() {
        return Ok(Seen::Not);
    }
    let updates = world.authority().slice(from, to)?;
    Ok(holds(are(updates.as_slice(), rows)))
}

fn latest(world: &World, characters: &[char], version: u32) -> Result<Seen, AllocError> {
    let found = world.authority().doc().chars()?;
    Ok(holds(found.as_slice() == characters && world.authority().version() == version))
}

/// What comes of a step.
pub(crate) fn does(alloc: Global, world: &mut World, step: Step) -> Result<Seen, AllocError> {
    match step {
        Step::Local(client, from, to, characters) => {
            replace(alloc, world, client, from, to, characters)
        }
        Step::Long(client) => lengthen(alloc, world, client),
        Step::Set(client, len) => keep(alloc, world, client, len),
        Step::Send(client) => send(world, client),
        Step::Publish(from, to) => publish(world, from, to),
        Step::Push(message) => push(world, message),
        Step::Take(message, client) => take(world, message, client),
        Step::Has(client, name, characters, made, version) => {
            has(world, client, name, characters, made, version)
        }
        Step::Sends(client, rows) => sends(world, client, rows),
        Step::Slice(from, to, rows) => slice(world, from, to, rows),
        Step::Latest(characters, version) => latest(world, characters, version),
    }
}
