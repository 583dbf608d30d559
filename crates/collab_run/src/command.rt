use change_set::Change;
use cm_plain::Str;
use listed::Listed;

/// The greatest number of clients of a world.
pub const MAX_CLIENTS: usize = 64;

/// What `begin` asks for.
#[derive(Drop)]
pub struct BeginRequest {
    /// The text that all start with, not yet cut at its line breaks.
    pub doc: Str,
    /// The names of the clients, from 1 to `MAX_CLIENTS` of them. They may not be distinct.
    pub clients: Listed<Str>,
}

/// What a line asks for.
#[derive(Drop)]
pub enum CollabCommand {
    /// A new world.
    Begin(BeginRequest),
    /// The client of this name changes its text.
    Local {
        client: Str,
        changes: Listed<Change>,
    },
    /// The client of this name sends its unconfirmed updates.
    Send {
        client: Str,
    },
    /// The authority's updates of the positions `from` to `to`, counted from 0, are published.
    Publish {
        from: u32,
        to: u32,
    },
    /// The message of this number, counted from 0, is delivered to the client of this name, or else to the authority.
    Deliver {
        message: u32,
        client: Option<Str>,
    },
    /// The authority's text.
    State,
}
