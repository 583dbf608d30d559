ghost use Rattle.std.specs.Prelude.{◌≡◌, ◌≢◌, ◌+◌, ◌<◌, ◌≤◌, ◌^◌, ◌↔◌, length, IfOk, IfErr, IfSome, IsTrue, false, OnOk, OnErr, Some, None, slice_get, option_and_then};
ghost use Rattle.std.specs.List.{position_from};
ghost use Rattle.std.specs.Str.{bytes_eq};
ghost use Rattle.line_tree.specs.Text.{max_len};
ghost use Rattle.collab.specs.declared.error.CollabError.TheVariants.{NoMemory};
ghost use Rattle.collab.specs.Worlds.{AreDistinct, begun, changed_at, with_clients, with_message};
ghost use Rattle.collab.specs.Conditions.{CanHappen, Exists, HasNumber, HasPlaces, HasRoom, IsEventOf};
ghost use Rattle.collab.specs.Stepping.{after_local, delivered, delivery_refusal, is_push, local_refusal, published, step_refusal, stepped, with_push};
ghost use Rattle.collab.specs.Authorities.{update_count};
ghost use Rattle.collab.specs.Converging.{Converges};

use crate::authority::Authority;
use crate::client::Client;
use crate::clients::{self, change, joined, received_by};
use crate::error::CollabError;
use crate::event::Event;
use crate::message::{self, Message};
use change_set::Change;
use cm_plain::Str;
use line_tree::Text;
use std::alloc::{AllocError, Global};
use std::marker::Model;

/// An authority, its clients, and every message that was ever sent. Clients and messages are named by their places, from 0.
#[derive(Drop)]
pub struct World {
    authority: Authority,
    clients: Vec<Client>,
    messages: Vec<Message>,
}

impl Model for World {
    ghost use Rattle.collab.specs.Worlds.{WorldView};
    ghost use Rattle.collab.specs.Invariants.{IsWorld};

    ghost Value = { WorldView };

    ghost view = { λ w. record { authority = w.authority; clients = w.clients.items; messages = w.messages.items } };

    ghost invariant = { λ w. IsWorld (record { authority = w.authority; clients = w.clients.items; messages = w.messages.items }) };
}

impl World {
    /// A world over a text, with a client of each name at version 0 and no message. `Err`: out of memory.
    pub fn new(alloc: Global, text: Text, names: Vec<Str>) -> Result<World, AllocError>
        requires short { length text.characters ≤ max_len }
        requires names { AreDistinct names.items }
        ensures value { IfOk result (λ w. w ≡ begun text.characters names.items) }
        ensures converges { IfOk result (λ w. Converges w) }
    {
        let clients = joined(alloc, &text, names)?;
        let authority = Authority::new(alloc, text)?;
        Ok(World {
            authority,
            clients,
            messages: Vec::new(alloc),
        })
    }

    /// The authority. Takes no memory.
    pub fn authority(&self) -> &Authority
        ensures { result.now ≡ self.now.authority }
    {
        &self.authority
    }

    /// A client that exists. Takes no memory.
    pub fn client(&self, index: u32) -> &Client
        requires { index < length self.now.clients }
        ensures { slice_get self.now.clients index ≡ Some result.now }
    {
        &self.clients[index as usize]
    }

    /// How many clients there are. Takes no memory.
    pub fn clients(&self) -> usize
        ensures { result ≡ length self.now.clients }
    {
        self.clients.len()
    }

    /// The place of the client of a name, if there is one. Takes no memory.
    #[tactic(auto, using(crate::proofs::Places::place_within))]
    pub fn place_of(&self, name: &Str) -> Option<usize>
        ensures place { result ≡ position_from (λ c. bytes_eq name.now c.name) 0 self.now.clients }
        ensures exists { IfSome result (λ place. place < length self.now.clients) }
    {
        clients::place_of(self.clients.as_slice(), name)
    }

    /// How many messages were sent. Takes no memory.
    pub fn messages(&self) -> usize
        ensures value { result ≡ length self.now.messages }
        ensures few { result < 2 ^ 32 }
    {
        self.messages.len()
    }

    /// Whether a message that exists is a Push. Takes no memory.
    pub fn is_push(&self, message: u32) -> bool
        requires { message < length self.now.messages }
        ensures { result ≡ is_push (slice_get self.now.messages message) }
    {
        self.messages[message as usize].is_push()
    }

    /// The same world once more. `Err`: out of memory.
    pub fn try_copy(&self) -> Result<World, AllocError>
        ensures { IfOk result (λ copy. copy ≡ self.now) }
    {
        let alloc = *self.clients.allocator();
        let authority = self.authority.try_copy()?;
        let clients = clients::copies_of(alloc, self.clients.as_slice())?;
        let messages = message::copies_of(alloc, self.messages.as_slice())?;
        Ok(World {
            authority,
            clients,
            messages,
        })
    }

    /// Whether there are still fewer than 2 ^ 32 updates, messages and local changes of each client after an event. Takes no
    /// memory.
    pub fn has_room(&self, event: &Event) -> bool
        requires { IsEventOf self.now event.now }
        ensures { IsTrue result ↔ HasRoom self.now event.now }
    {
        match event {
            Event::Local { client, changes: _ } => self.clients[*client as usize].made() < u32::MAX,
            Event::Send { client: _ } => self.messages.len() < u32::MAX as usize,
            Event::Publish { from: _, to: _ } => self.messages.len() < u32::MAX as usize,
            Event::Deliver { message, client: _ } => {
                self.has_places(&self.messages[*message as usize])
            }
        }
    }

    /// Lets an event happen whose client and message exist. `Err`: as the call refuses that the event makes; or out of memory.
    /// After an error nothing has changed. Whatever happened, the clients' texts are as the authority's updates make them, and
    /// each client's updates stand in the authority's list at most once and in that client's order.
    pub fn step(&mut self, event: &Event) -> Result<(), CollabError>
        requires { CanHappen self.old event.now }
        ensures ok { OnOk result (self.new ≡ stepped self.old event.now) }
        ensures accepted { OnOk result (step_refusal self.old event.now ≡ None) }
        ensures err { OnErr result (self.new ≡ self.old) }
        ensures refused { IfErr result (λ e. e ≢ NoMemory → step_refusal self.old event.now ≡ Some e) }
        ensures converges { Converges self.new }
    {
        let outcome = self.happen(event);
        self.converge();
        outcome
    }
}

impl World {
    /// The theorem of collaboration, which each world meets.
    fn converge(&self)
        ensures { Converges self.now }
    {
        // For the proof alone: a field is named so that what the type keeps is at hand.
        let _ = &self.authority;
    }

    /// Whether the authority takes no more updates of a message than can be counted.
    fn has_places(&self, message: &Message) -> bool
        ensures { IsTrue result ↔ HasPlaces (Some message.now) self.now }
    {
        match message {
            Message::Push {
                client: _,
                version,
                updates,
            } => {
                *version != self.authority.version()
                    || updates.as_slice().len() <= (u32::MAX - *version) as usize
            }
            Message::Updates {
                from: _,
                updates: _,
            } => true,
        }
    }

    /// Lets an event happen.
    fn happen(&mut self, event: &Event) -> Result<(), CollabError>
        requires { CanHappen self.old event.now }
        ensures ok { OnOk result (self.new ≡ stepped self.old event.now) }
        ensures accepted { OnOk result (step_refusal self.old event.now ≡ None) }
        ensures err { OnErr result (self.new ≡ self.old) }
        ensures refused { IfErr result (λ e. e ≢ NoMemory → step_refusal self.old event.now ≡ Some e) }
    {
        match event {
            Event::Local { client, changes } => self.local(*client, changes.as_slice()),
            Event::Send { client } => Ok(self.send(*client)?),
            Event::Publish { from, to } => Ok(self.publish(*from, *to)?),
            Event::Deliver { message, client } => self.deliver(*message, *client),
        }
    }

    /// A client changes its text.
    fn local(&mut self, client: u32, changes: &[Change]) -> Result<(), CollabError>
        requires exists { client < length self.old.clients }
        requires room { HasNumber (slice_get self.old.clients client) }
        ensures ok { OnOk result (self.new ≡ with_clients (changed_at client (after_local changes.now) self.old.clients) self.old) }
        ensures accepted { OnOk result (option_and_then (local_refusal changes.now) (slice_get self.old.clients client) ≡ None) }
        ensures err { OnErr result (self.new ≡ self.old) }
        ensures refused { IfErr result (λ e. e ≢ NoMemory → option_and_then (local_refusal changes.now) (slice_get self.old.clients client) ≡ Some e) }
    {
        change(&mut self.clients, client as usize, changes)
    }

    /// A client sends its unconfirmed updates.
    fn send(&mut self, client: u32) -> Result<(), AllocError>
        requires exists { client < length self.old.clients }
        requires room { length self.old.messages + 1 < 2 ^ 32 }
        ensures ok { OnOk result (self.new ≡ with_push (slice_get self.old.clients client) self.old) }
        ensures err { OnErr result (self.new ≡ self.old) }
    {
        let push = self.clients[client as usize].push_message()?;
        self.messages.push(push)?;
        Ok(())
    }

    /// Updates of the authority are published.
    fn publish(&mut self, from: u32, to: u32) -> Result<(), AllocError>
        requires order { from ≤ to }
        requires within { to ≤ update_count self.old.authority }
        requires room { length self.old.messages + 1 < 2 ^ 32 }
        ensures ok { OnOk result (self.new ≡ with_message (published from to self.old.authority) self.old) }
        ensures err { OnErr result (self.new ≡ self.old) }
    {
        let updates = self.authority.slice(from, to)?;
        self.messages.push(Message::Updates { from, updates })?;
        Ok(())
    }

    /// A message is delivered.
    fn deliver(&mut self, message: u32, to: Option<u32>) -> Result<(), CollabError>
        requires message { message < length self.old.messages }
        requires exists { Exists to self.old.clients }
        requires room { HasPlaces (slice_get self.old.messages message) self.old }
        ensures ok { OnOk result (self.new ≡ delivered (slice_get self.old.messages message) to self.old) }
        ensures accepted { OnOk result (delivery_refusal (slice_get self.old.messages message) to self.old ≡ None) }
        ensures err { OnErr result (self.new ≡ self.old) }
        ensures refused { IfErr result (λ e. e ≢ NoMemory → delivery_refusal (slice_get self.old.messages message) to self.old ≡ Some e) }
    {
        match &self.messages[message as usize] {
            Message::Push {
                client,
                version,
                updates,
            } => self.authority.push(client, *version, updates.as_slice()),
            Message::Updates { from, updates } => {
                received_by(&mut self.clients, to, *from, updates.as_slice())
            }
        }
    }
}
