ghost use Rattle.std.specs.Prelude.{◌≡◌, ◌≢◌, ◌≤◌, ◌<◌, ◌+◌, ◌-◌, ◌^◌, length, IfOk, IfErr};
ghost use Rattle.change_desc.specs.Sections.{spelled, counted, new_size, old_size};
ghost use Rattle.change_desc.specs.Of.{span, then_also};
ghost use Rattle.change_set.specs.Changes.{as_set};
ghost use Rattle.change_set.specs.Totals.{IsOver, IsTooLong};

use crate::change::Change;
use crate::change_set::ChangeSet;
use crate::error::ChangesError;
use crate::inserted_text::InsertedText;
use change_desc::{Desc, Section};
use std::alloc::{AllocError, Global};

/// The lengths of the deletion of a range of a document.
fn deletion_lengths(alloc: Global, len: u32, from: u32, to: u32) -> Result<Desc, AllocError>
    requires order { from ≤ to }
    requires within { to ≤ len }
    ensures { IfOk result (λ lengths. lengths ≡ span counted len from to 0) }
{
    let mut lengths = Desc::new(alloc);
    lengths.push(Section::Keep(from))?;
    lengths.push(Section::Replace(to - from, 0))?;
    lengths.push(Section::Keep(len - to))?;
    Ok(lengths)
}

impl ChangeSet {
    /// The length of the document that the changes so far and then one more set lead to.
    fn length_with_set(&self, set: &ChangeSet) -> Result<u64, AllocError>
        requires { old_size set.now ≡ old_size self.now }
        ensures { IfOk result (λ len. len ≡ new_size spelled (then_also spelled self.now set.now)) }
    {
        let done = self.desc()?;
        let own = set.desc()?;
        Ok(own.mapped_len(&done))
    }

    /// The changes so far and then one more set.
    fn and_also(&self, set: &ChangeSet) -> Result<ChangeSet, AllocError>
        requires meet { old_size set.now ≡ old_size self.now }
        requires fits { new_size spelled (then_also spelled self.now set.now) < 2 ^ 32 }
        ensures { IfOk result (λ total. total ≡ then_also spelled self.now set.now) }
    {
        let done = self.desc()?;
        let moved = set.map(&done, false)?;
        let total = self.compose(&moved)?;
        Ok(total)
    }

    /// The same, where the document doesn't get too long.
    fn with_set(&self, set: &ChangeSet, max: u32) -> Result<ChangeSet, ChangesError>
        requires { old_size set.now ≡ old_size self.now }
        ensures set { IfOk result (λ total. total ≡ then_also spelled self.now set.now) }
        ensures short { IfOk result (λ total. new_size spelled total ≤ max) }
        ensures refused { IfErr result (λ error. error ≢ ChangesError.NoMemory → IsTooLong max (then_also spelled self.now set.now) error) }
    {
        let len = self.length_with_set(set)?;
        if len > u64::from(max) {
            return Err(ChangesError::TooLong { len, max });
        }
        let total = self.and_also(set)?;
        Ok(total)
    }

    /// The length of the document that the changes so far and then the replacement of a range lead to.
    fn length_with_span(&self, from: u32, to: u32, insert: &InsertedText) -> Result<u64, AllocError>
        requires order { from ≤ to }
        requires within { to ≤ old_size self.now }
        ensures { IfOk result (λ len. len ≡ new_size spelled (then_also spelled self.now (span spelled (old_size self.now) from to insert.now))) }
    {
        let done = self.desc()?;
        let deletion = deletion_lengths(self.allocator(), self.len(), from, to)?;
        Ok(u64::from(insert.len()) + deletion.mapped_len(&done))
    }

    /// The changes so far and then the replacement of a range, where the document doesn't get too long. A replacement
    /// whose own new document has 2 ^ 32 characters or more can't be held: out of memory.
    fn with_span(
        &self,
        from: u32,
        to: u32,
        insert: &InsertedText,
        max: u32,
    ) -> Result<ChangeSet, ChangesError>
        requires order { from ≤ to }
        requires within { to ≤ old_size self.now }
        ensures set { IfOk result (λ total. total ≡ then_also spelled self.now (span spelled (old_size self.now) from to insert.now)) }
        ensures short { IfOk result (λ total. new_size spelled total ≤ max) }
        ensures refused { IfErr result (λ error. error ≢ ChangesError.NoMemory → IsTooLong max (then_also spelled self.now (span spelled (old_size self.now) from to insert.now)) error) }
    {
        let len = self.length_with_span(from, to, insert)?;
        if len > u64::from(max) {
            return Err(ChangesError::TooLong { len, max });
        }
        if insert.len() > u32::MAX - (self.len() - (to - from)) {
            return Err(ChangesError::NoMemory);
        }
        let set = ChangeSet::span(self.allocator(), self.len(), from, to, insert)?;
        let total = self.and_also(&set)?;
        Ok(total)
    }

    /// The changes so far and then one more, where the document doesn't get too long.
    pub(crate) fn with_change(&self, change: &Change, max: u32) -> Result<ChangeSet, ChangesError>
        requires { IsOver (old_size self.now) change.now }
        ensures set { IfOk result (λ total. total ≡ then_also spelled self.now (as_set (old_size self.now) change.now)) }
        ensures short { IfOk result (λ total. new_size spelled total ≤ max) }
        ensures refused { IfErr result (λ error. error ≢ ChangesError.NoMemory → IsTooLong max (then_also spelled self.now (as_set (old_size self.now) change.now)) error) }
    {
        match change {
            Change::Span { from, to, insert } => self.with_span(*from, *to, insert, max),
            Change::Set(set) => self.with_set(set, max),
        }
    }
}
