//! Collaboration: an authority that orders updates of one text, clients that change it at the same time, and worlds of both with
//! the messages between them (package @codemirror/collab).
//!
//! A layer above may rely on this. After any list of events, in which messages are lost, repeated and delivered in any order, a
//! client's text is the authority's text at the client's version with the client's unconfirmed updates applied; each client's
//! updates stand in the authority's list at most once and in that client's order. A refused event changes nothing.
#![tactic(auto)]

mod authority;
mod client;
mod clients;
mod crossing;
mod error;
mod event;
mod lengths;
mod message;
mod name_list;
mod update;
mod world;

pub use crate::authority::Authority;
pub use crate::client::Client;
pub use crate::error::CollabError;
pub use crate::event::Event;
pub use crate::message::Message;
pub use crate::name_list::first_taken;
pub use crate::update::Update;
pub use crate::world::World;
