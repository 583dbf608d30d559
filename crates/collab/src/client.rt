ghost use Rattle.std.specs.Prelude.{◌≡◌, ◌≢◌, ◌∷◌, ◌+◌, ◌<◌, ◌≤◌, ◌^◌, suc, true, false, length, IfOk, IfErr, OnOk, OnErr, Some, None};
ghost use Rattle.std.specs.Str.{bytes_eq};
ghost use Rattle.line_tree.specs.Text.{max_len};
ghost use Rattle.change_desc.specs.Sections.{spelled, old_size, new_size};
ghost use Rattle.change_set.specs.Refusals.{refusal};
ghost use Rattle.change_set.specs.declared.error.ChangesError.TheVariants as changes_error;
ghost use Rattle.collab.specs.declared.error.CollabError.TheVariants.{NoMemory};
ghost use Rattle.collab.specs.Lengths.{too_long};
ghost use Rattle.collab.specs.Updates.{applied};
ghost use Rattle.collab.specs.Clients.{CanReceive, IsClient, IsFirst, IsLocal, all_taken, client_lengths, crossed, document, joined, receive_refusal, received, taken, taking_refusal, unseen, with_local};
ghost use Rattle.collab.specs.Stepping.{after_local, local_set, push_of};
ghost use Rattle.collab.specs.Views.{at_version};

use crate::crossing::{AllCrossed, all_crossed};
use crate::error::CollabError;
use crate::lengths::long;
use crate::message::Message;
use crate::update::{Update, copies, is_same};
use change_set::{Change, ChangeSet, ChangesError};
use cm_plain::Str;
use line_tree::{MAX_LEN, Text};
use listed::Listed;
use std::alloc::{AllocError, Global};
use std::marker::Model;

/// A client of an authority: it changes its text at once, and sends its changes as updates that are confirmed when it receives
/// them (package @codemirror/collab: collab). Its version is how many of the authority's updates it has seen.
#[derive(Drop)]
pub struct Client {
    name: Str,
    version: u32,
    made: u32,
    confirmed: Text,
    pending: Vec<Update>,
    doc: Text,
}

impl Model for Client {
    ghost use Rattle.std.specs.Prelude.{◌≡◌};
    ghost use Rattle.collab.specs.Clients.{ClientView, IsClient, document};

    ghost Value = { ClientView };

    ghost use Rattle.collab.specs.Views.{client_view};

    ghost view = { client_view };

    ghost invariant = { λ c. (c.doc.characters ≡ document (client_view c)) × IsClient (client_view c) };
}

impl Client {
    /// A client of this name at version 0, over the authority's start text. `Err`: out of memory.
    pub fn new(alloc: Global, name: Str, text: Text) -> Result<Client, AllocError>
        requires { length text.characters ≤ max_len }
        ensures { IfOk result (λ c. c ≡ joined name text.characters) }
    {
        let confirmed = text.try_copy()?;
        Ok(Client {
            name,
            version: 0,
            made: 0,
            confirmed,
            pending: Vec::new(alloc),
            doc: text,
        })
    }

    /// Its name. Takes no memory.
    pub fn name(&self) -> &Str
        ensures { result.now ≡ self.now.name }
    {
        &self.name
    }

    /// How many of the authority's updates it has seen. Takes no memory.
    pub fn version(&self) -> u32
        ensures { result ≡ self.now.version }
    {
        self.version
    }

    /// How many local changes it made. Takes no memory.
    pub fn made(&self) -> u32
        ensures { result ≡ self.now.made }
    {
        self.made
    }

    /// Its text, with all its changes. Takes no memory.
    pub fn doc(&self) -> &Text
        ensures { result.now.characters ≡ document self.now }
    {
        &self.doc
    }

    /// Its updates that are not confirmed, in order. Takes no memory.
    pub fn pending(&self) -> &[Update]
        ensures { result.now ≡ self.now.pending }
    {
        self.pending.as_slice()
    }

    /// What it sends: all its unconfirmed updates (package @codemirror/collab: sendableUpdates). `Err`: out of memory.
    pub fn sendable(&self) -> Result<Listed<Update>, AllocError>
        ensures { IfOk result (λ updates. updates ≡ self.now.pending) }
    {
        Ok(Listed::new(copies(*self.pending.allocator(), self.pending.as_slice())?))
    }

    /// The message that sends all its unconfirmed updates. `Err`: out of memory.
    pub(crate) fn push_message(&self) -> Result<Message, AllocError>
        ensures { IfOk result (λ m. m ≡ push_of self.now) }
    {
        Ok(Message::Push {
            client: self.name.try_copy()?,
            version: self.version,
            updates: self.sendable()?,
        })
    }

    /// Changes its text. `Err`: as `ChangeSet::of` refuses the changes of its text. After an error nothing has changed.
    pub fn local(&mut self, changes: &[Change]) -> Result<(), ChangesError>
        requires { self.old.made + 1 < 2 ^ 32 }
        ensures ok { OnOk result (self.new ≡ after_local changes.now self.old) }
        ensures accepted { OnOk result (refusal (length (document self.old)) max_len changes.now ≡ None) }
        ensures fits { OnOk result (IsLocal self.old (local_set changes.now self.old)) }
        ensures err { OnErr result (self.new ≡ self.old) }
        ensures refused { IfErr result (λ e. e ≢ changes_error.NoMemory → refusal (length (document self.old)) max_len changes.now ≡ Some e) }
    {
        let alloc = *self.pending.allocator();
        let set = ChangeSet::of(alloc, changes, self.doc.len(), MAX_LEN)?;
        self.make(set)?;
        Ok(())
    }

    /// Receives the authority's updates from a position of its list on; those that it has seen are passed over. `Err`: they begin
    /// past its version; or else a text would be too long, with the first such length; or out of memory. After an error nothing
    /// has changed.
    pub fn receive(&mut self, from: u32, updates: &[Update]) -> Result<(), CollabError>
        requires { from ≤ self.old.version → CanReceive self.old (unseen self.old from updates.now) }
        ensures ok { OnOk result (self.new ≡ received self.old from updates.now) }
        ensures accepted { OnOk result (receive_refusal self.old from updates.now ≡ None) }
        ensures err { OnErr result (self.new ≡ self.old) }
        ensures refused { IfErr result (λ e. e ≢ NoMemory → receive_refusal self.old from updates.now ≡ Some e) }
    {
        let version = self.version;
        if version < from {
            return Err(CollabError::Ahead { from, version });
        }
        let seen = (version - from) as usize;
        if seen < updates.len() {
            let next = self.after_all(&updates[seen..])?;
            *self = next;
        }
        Ok(())
    }
}

impl Client {
    /// Makes a local change, whose text is not too long.
    fn make(&mut self, set: ChangeSet) -> Result<(), AllocError>
        requires few { self.old.made + 1 < 2 ^ 32 }
        requires starts { old_size set ≡ length (document self.old) }
        requires short { new_size spelled set ≤ max_len }
        ensures ok { OnOk result (self.new ≡ with_local self.old set) }
        ensures err { OnErr result (self.new ≡ self.old) }
    {
        let doc = set.apply(&self.doc)?;
        let client = self.name.try_copy()?;
        let update = Update {
            client,
            number: self.made,
            changes: set,
        };
        self.pending.push(update)?;
        self.made += 1;
        self.doc = doc;
        Ok(())
    }

    /// The same client once more. `Err`: out of memory.
    pub fn try_copy(&self) -> Result<Client, AllocError>
        ensures { IfOk result (λ copy. copy ≡ self.now) }
    {
        let pending = copies(*self.pending.allocator(), self.pending.as_slice())?;
        let confirmed = self.confirmed.try_copy()?;
        let doc = self.doc.try_copy()?;
        self.with(self.version, confirmed, pending, doc)
    }

    /// This client with other texts and unconfirmed updates, at a version.
    fn with(
        &self,
        version: u32,
        confirmed: Text,
        pending: Vec<Update>,
        doc: Text,
    ) -> Result<Client, AllocError>
        requires doc { doc.characters ≡ applied pending.items confirmed.characters }
        requires client { IsClient (at_version self.now version confirmed.characters pending.items) }
        ensures { IfOk result (λ c. c ≡ at_version self.now version confirmed.characters pending.items) }
    {
        Ok(Client {
            name: self.name.try_copy()?,
            version,
            made: self.made,
            confirmed,
            pending,
            doc,
        })
    }

    /// Its first unconfirmed update was confirmed.
    fn confirm(&mut self, update: &Update) -> Result<(), AllocError>
        requires own { bytes_eq self.old.name update.now.client ≡ true }
        requires first { IsFirst update.now self.old.pending }
        requires starts { old_size update.now.changes ≡ length self.old.confirmed }
        requires few { self.old.version + 1 < 2 ^ 32 }
        ensures taken { OnOk result (self.new ≡ taken self.old update.now) }
        ensures err { OnErr result (self.new ≡ self.old) }
    {
        let confirmed = update.changes.apply(&self.confirmed)?;
        self.pending.remove(0);
        self.version += 1;
        self.confirmed = confirmed;
        Ok(())
    }

    /// This client over an update that the authority took before its own, which are mapped over it.
    fn over(&self, update: &Update, all: AllCrossed) -> Result<Client, AllocError>
        requires other { bytes_eq self.now.name update.now.client ≡ false }
        requires starts { old_size update.now.changes ≡ length self.now.confirmed }
        requires few { self.now.version + 1 < 2 ^ 32 }
        requires updates { all.updates.items ≡ (crossed update.now.changes self.now.pending).updates }
        requires taken { all.taken ≡ (crossed update.now.changes self.now.pending).taken }
        requires short { too_long (client_lengths (taken self.now update.now)) ≡ None }
        ensures taken { IfOk result (λ c. c ≡ taken self.now update.now) }
    {
        let confirmed = update.changes.apply(&self.confirmed)?;
        let doc = all.taken.apply(&self.doc)?;
        self.with(self.version + 1, confirmed, all.updates, doc)
    }

    /// This client after another's update.
    fn crossing(&self, update: &Update) -> Result<Client, CollabError>
        requires other { bytes_eq self.now.name update.now.client ≡ false }
        requires starts { old_size update.now.changes ≡ length self.now.confirmed }
        requires few { self.now.version + 1 < 2 ^ 32 }
        ensures taken { IfOk result (λ c. c ≡ taken self.now update.now) }
        ensures short { IfOk result (λ c. too_long (client_lengths (taken self.now update.now)) ≡ None) }
        ensures refused { IfErr result (λ e. e ≢ NoMemory → too_long (client_lengths (taken self.now update.now)) ≡ Some e) }
    {
        if let Some(error) = long(u64::from(update.changes.new_len())) {
            return Err(error);
        }
        let alloc = *self.pending.allocator();
        let all = all_crossed(alloc, self.pending.as_slice(), &update.changes)?;
        Ok(self.over(update, all)?)
    }

    /// Takes one more of the authority's updates. `Err`: the first text that is too long; or out of memory. After an error nothing
    /// has changed.
    fn take(&mut self, update: &Update) -> Result<(), CollabError>
        requires starts { old_size update.now.changes ≡ length self.old.confirmed }
        requires confirms { self.old.name ≡ update.now.client → IsFirst update.now self.old.pending }
        requires few { self.old.version + 1 < 2 ^ 32 }
        ensures taken { OnOk result (self.new ≡ taken self.old update.now) }
        ensures short { OnOk result (too_long (client_lengths (taken self.old update.now)) ≡ None) }
        ensures err { OnErr result (self.new ≡ self.old) }
        ensures refused { IfErr result (λ e. e ≢ NoMemory → too_long (client_lengths (taken self.old update.now)) ≡ Some e) }
    {
        if is_same(&self.name, &update.client) {
            self.confirm(update)?;
            return Ok(());
        }
        let next = self.crossing(update)?;
        *self = next;
        Ok(())
    }

    /// This client after one more of the authority's updates. `Err`: the first text that is too long; or out of memory.
    fn after(&self, update: &Update) -> Result<Client, CollabError>
        requires starts { old_size update.now.changes ≡ length self.now.confirmed }
        requires confirms { self.now.name ≡ update.now.client → IsFirst update.now self.now.pending }
        requires few { self.now.version + 1 < 2 ^ 32 }
        ensures taken { IfOk result (λ c. c ≡ taken self.now update.now) }
        ensures short { IfOk result (λ c. too_long (client_lengths (taken self.now update.now)) ≡ None) }
        ensures refused { IfErr result (λ e. e ≢ NoMemory → too_long (client_lengths (taken self.now update.now)) ≡ Some e) }
    {
        if is_same(&self.name, &update.client) {
            Ok(self.confirmed(update)?)
        } else {
            self.crossing(update)
        }
    }

    /// This client once more, after its first unconfirmed update was confirmed.
    fn confirmed(&self, update: &Update) -> Result<Client, AllocError>
        requires own { bytes_eq self.now.name update.now.client ≡ true }
        requires first { IsFirst update.now self.now.pending }
        requires starts { old_size update.now.changes ≡ length self.now.confirmed }
        requires few { self.now.version + 1 < 2 ^ 32 }
        ensures taken { IfOk result (λ c. c ≡ taken self.now update.now) }
    {
        let mut next = self.try_copy()?;
        next.confirm(update)?;
        Ok(next)
    }

    /// This client after more of the authority's updates. `Err`: the first text that is too long; or out of memory.
    fn after_all(&self, updates: &[Update]) -> Result<Client, CollabError>
        requires { CanReceive self.now updates.now }
        ensures taken { IfOk result (λ c. c ≡ all_taken self.now updates.now) }
        ensures short { IfOk result (λ c. taking_refusal self.now updates.now ≡ None) }
        ensures refused { IfErr result (λ e. e ≢ NoMemory → taking_refusal self.now updates.now ≡ Some e) }
    {
        match updates.split_first() {
            None => Ok(self.try_copy()?),
            Some((first, rest)) => self.after_some(first, rest),
        }
    }

    /// This client after one more of the authority's updates and the rest. `Err`: as for `after_all`.
    fn after_some(&self, first: &Update, rest: &[Update]) -> Result<Client, CollabError>
        requires { CanReceive self.now (first.now ∷ rest.now) }
        ensures taken { IfOk result (λ c. c ≡ all_taken self.now (first.now ∷ rest.now)) }
        ensures short { IfOk result (λ c. taking_refusal self.now (first.now ∷ rest.now) ≡ None) }
        ensures refused { IfErr result (λ e. e ≢ NoMemory → taking_refusal self.now (first.now ∷ rest.now) ≡ Some e) }
    {
        let mut client = self.after(first)?;
        for update in rest {
            client.take(update)?;
        }
        Ok(client)
    }
}
