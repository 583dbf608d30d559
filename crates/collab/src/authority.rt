ghost use Rattle.std.specs.Prelude.{◌≡◌, ◌≢◌, ◌+◌, ◌≤◌, ◌<◌, ◌^◌, length, IfOk, IfErr, OnOk, OnErr, Some, None};
ghost use Rattle.line_tree.specs.Text.{max_len};
ghost use Rattle.collab.specs.declared.error.CollabError.TheVariants.{NoMemory};
ghost use Rattle.collab.specs.Lengths.{lengths_after, too_long};
ghost use Rattle.collab.specs.Authorities.{CanTake, latest, opened, push_refusal, pushed, slice_of, update_count};

use crate::error::CollabError;
use crate::lengths::{applied, first_long};
use crate::update::{Update, copies};
use cm_plain::Str;
use line_tree::Text;
use listed::Listed;
use std::alloc::{AllocError, Global};
use std::marker::Model;

/// An authority: it orders the updates of one text (package @codemirror/collab, the central authority). Its version is how many
/// updates it took.
#[derive(Drop)]
pub struct Authority {
    start: Text,
    updates: Vec<Update>,
    doc: Text,
}

impl Model for Authority {
    ghost use Rattle.std.specs.Prelude.{◌≡◌};
    ghost use Rattle.collab.specs.Authorities.{AuthorityView, IsAuthority, latest};

    ghost Value = { AuthorityView };

    ghost view = { λ a. record { start = a.start.characters; updates = a.updates.items } };

    ghost invariant = { λ a. (a.doc.characters ≡ latest (record { start = a.start.characters; updates = a.updates.items })) × IsAuthority (record { start = a.start.characters; updates = a.updates.items }) };
}

impl Authority {
    /// An authority over a text, without updates. `Err`: out of memory.
    pub fn new(alloc: Global, text: Text) -> Result<Authority, AllocError>
        requires { length text.characters ≤ max_len }
        ensures { IfOk result (λ a. a ≡ opened text.characters) }
    {
        Ok(Authority {
            start: text.try_copy()?,
            updates: Vec::new(alloc),
            doc: text,
        })
    }

    /// How many updates it took. Takes no memory.
    pub fn version(&self) -> u32
        ensures { result ≡ update_count self.now }
    {
        self.updates.len() as u32
    }

    /// Its text, after all its updates. Takes no memory.
    pub fn doc(&self) -> &Text
        ensures { result.now.characters ≡ latest self.now }
    {
        &self.doc
    }

    /// Takes the updates of a client over a version. `Err`: the version isn't the authority's; or else the text after one of the
    /// updates would be too long, with the first such length; or out of memory. After an error nothing has changed.
    pub fn push(&mut self, name: &Str, version: u32, updates: &[Update]) -> Result<(), CollabError>
        requires room { version ≡ update_count self.old → version + length updates.now < 2 ^ 32 }
        requires takes { version ≡ update_count self.old → CanTake self.old name.now updates.now }
        ensures ok { OnOk result (self.new ≡ pushed self.old updates.now) }
        ensures accepted { OnOk result (push_refusal self.old version updates.now ≡ None) }
        ensures err { OnErr result (self.new ≡ self.old) }
        ensures refused { IfErr result (λ e. e ≢ NoMemory → push_refusal self.old version updates.now ≡ Some e) }
    {
        let latest = self.version();
        if version != latest {
            return Err(CollabError::Stale { version: latest });
        }
        if let Some(error) = first_long(updates) {
            return Err(error);
        }
        self.take(name, updates)?;
        Ok(())
    }

    /// The updates of the positions `from` to `to`. `Err`: out of memory.
    pub fn slice(&self, from: u32, to: u32) -> Result<Listed<Update>, AllocError>
        requires order { from ≤ to }
        requires within { to ≤ update_count self.now }
        ensures { IfOk result (λ updates. updates ≡ slice_of from to self.now.updates) }
    {
        let part = &self.updates.as_slice()[from as usize..to as usize];
        Ok(Listed::new(copies(*self.updates.allocator(), part)?))
    }

    /// The same authority once more. `Err`: out of memory.
    pub(crate) fn try_copy(&self) -> Result<Authority, AllocError>
        ensures { IfOk result (λ copy. copy ≡ self.now) }
    {
        let updates = copies(*self.updates.allocator(), self.updates.as_slice())?;
        Ok(Authority {
            start: self.start.try_copy()?,
            updates,
            doc: self.doc.try_copy()?,
        })
    }

    /// Takes updates over its text, none of which is too long.
    fn take(&mut self, name: &Str, updates: &[Update]) -> Result<(), AllocError>
        requires room { update_count self.old + length updates.now < 2 ^ 32 }
        requires takes { CanTake self.old name.now updates.now }
        requires short { too_long (lengths_after (latest self.old) updates.now) ≡ None }
        ensures ok { OnOk result (self.new ≡ pushed self.old updates.now) }
        ensures err { OnErr result (self.new ≡ self.old) }
    {
        let doc = applied(&self.doc, updates)?;
        let mut more = copies(*self.updates.allocator(), updates)?;
        self.updates.append(&mut more)?;
        self.doc = doc;
        Ok(())
    }
}
