ghost use Rattle.std.specs.Prelude.{◌≡◌, IfOk, Some};
ghost use Rattle.collab.specs.Stepping.{is_push};

use crate::update::{Update, copies};
use cm_plain::Str;
use listed::Listed;
use std::alloc::{AllocError, Global};

/// A message between a client and the authority.
#[derive(Drop)]
pub enum Message {
    /// What a client sends: its name, its version, and all its unconfirmed updates.
    Push {
        client: Str,
        version: u32,
        updates: Listed<Update>,
    },
    /// What is published: the authority's updates from a position of its list on.
    Updates {
        from: u32,
        updates: Listed<Update>,
    },
}

impl Message {
    /// Whether it is a Push.
    pub fn is_push(&self) -> bool
        ensures { result ≡ is_push (Some self.now) }
    {
        match self {
            Message::Push {
                client: _,
                version: _,
                updates: _,
            } => true,
            Message::Updates {
                from: _,
                updates: _,
            } => false,
        }
    }

    /// The same message once more. `Err`: out of memory.
    pub(crate) fn try_copy(&self, alloc: Global) -> Result<Message, AllocError>
        ensures { IfOk result (λ copy. copy ≡ self.now) }
    {
        match self {
            Message::Push {
                client,
                version,
                updates,
            } => pushed(alloc, client, *version, updates.as_slice()),
            Message::Updates { from, updates } => Ok(Message::Updates {
                from: *from,
                updates: Listed::new(copies(alloc, updates.as_slice())?),
            }),
        }
    }
}

/// The Push of these updates.
fn pushed(
    alloc: Global,
    client: &Str,
    version: u32,
    updates: &[Update],
) -> Result<Message, AllocError>
    ensures { IfOk result (λ m. m ≡ Message.Push client.now version updates.now) }
{
    let updates = Listed::new(copies(alloc, updates)?);
    Ok(Message::Push {
        client: client.try_copy()?,
        version,
        updates,
    })
}

/// Copies of messages.
pub(crate) fn copies_of(alloc: Global, messages: &[Message]) -> Result<Vec<Message>, AllocError>
    ensures { IfOk result (λ all. all.items ≡ messages.now) }
{
    let mut all = Vec::new(alloc);
    for message in messages {
        all.push(message.try_copy(alloc)?)?;
    }
    Ok(all)
}
