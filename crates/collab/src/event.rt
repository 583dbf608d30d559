use change_set::Change;
use listed::Listed;

/// What may happen in a world. Clients and messages are named by their places, from 0. A message that is lost is one that is never
/// delivered; any message may be delivered any number of times.
#[derive(Drop)]
pub enum Event {
    /// A client changes its text.
    Local {
        client: u32,
        changes: Listed<Change>,
    },
    /// A client sends its version and all its unconfirmed updates.
    Send {
        client: u32,
    },
    /// The authority's updates of the positions `from` to `to` are published.
    Publish {
        from: u32,
        to: u32,
    },
    /// A message is delivered: a Push to the authority, Updates to the client, if one is named.
    Deliver {
        message: u32,
        client: Option<u32>,
    },
}
