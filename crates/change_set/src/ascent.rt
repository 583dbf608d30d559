ghost use Rattle.std.specs.Prelude.{◌≡◌, ◌≢◌, ◌≤◌, ◌<◌, ◌+◌, ◌^◌, ◌∷◌, ◌++◌, [], length, IfOk, IfErr, OnOk, IsTrue, IsFalse, None, Some};
ghost use Rattle.change_desc.specs.declared.section.Section.TheVariants.{Keep, Replace};
ghost use Rattle.change_desc.specs.Sections.{spelled, old_size, new_size, normal};
ghost use Rattle.change_desc.specs.Of.{span, then_also};
ghost use Rattle.change_set.specs.Ascents.{Grows, IsAscent, total_of};
ghost use Rattle.change_set.specs.Changes.{as_set};
ghost use Rattle.change_set.specs.Refusals.{first_fault, refusal};
ghost use Rattle.change_set.specs.Totals.{IsOver, IsTooLong, IsTotal};

use crate::change::Change;
use crate::change_set::ChangeSet;
use crate::error::ChangesError;
use crate::inserted_text::InsertedText;
use crate::sections::{Sections, push_section};
use change_desc::Section;
use smallvec::SmallVec;
use std::alloc::{AllocError, Global};

/// Changes of a document of `len` characters that were put one after the other, each beginning at or after the end of the
/// one before. The sections go up to `end` in the document; all of it becomes `new_len` characters long.
#[derive(Drop)]
pub(crate) struct Ascent {
    pub(crate) sections: Sections,
    pub(crate) end: u32,
    pub(crate) len: u32,
    pub(crate) new_len: u32,
}

/// Puts after sections so many characters that are kept, and then so many that are replaced by a text.
#[inline(always)]
pub(crate) fn push_span(
    sections: &mut Sections,
    kept: u32,
    count: u32,
    insert: &InsertedText,
) -> Result<(), AllocError>
    requires is_normal { normal spelled sections.old.items ≡ sections.old.items }
    requires old_fits { old_size sections.old.items + kept + count < 2 ^ 32 }
    requires new_fits { new_size spelled sections.old.items + kept + length insert.now < 2 ^ 32 }
    ensures { OnOk result (sections.new.items ≡ normal spelled (sections.old.items ++ Keep kept ∷ Replace count insert.now ∷ [])) }
{
    push_section(sections, Section::Keep(kept))?;
    let text = insert.try_copy()?;
    push_section(sections, Section::Replace(count, text))
}

impl Ascent {
    /// No change of a document.
    fn new(alloc: Global, len: u32) -> Ascent
        ensures is_ascent { IsAscent result }
        ensures len { result.len ≡ len }
        ensures total { total_of result ≡ normal spelled (Keep len ∷ []) }
    {
        Ascent {
            sections: SmallVec::new(alloc),
            end: 0,
            len,
            new_len: len,
        }
    }

    /// Puts the replacement of a range after the others.
    fn put(
        &mut self,
        from: u32,
        to: u32,
        insert: &InsertedText,
        max: u32,
    ) -> Result<(), ChangesError>
        requires is_ascent { IsAscent self.old }
        requires follows { self.old.end ≤ from }
        requires order { from ≤ to }
        requires within { to ≤ self.old.len }
        ensures grows { OnOk result (Grows max self.old self.new (span spelled self.old.len from to insert.now)) }
        ensures refused { IfErr result (λ error. error ≢ ChangesError.NoMemory → IsTooLong max (then_also spelled (total_of self.old) (span spelled self.old.len from to insert.now)) error) }
    {
        let len = u64::from(self.new_len - (to - from)) + u64::from(insert.len());
        if len > u64::from(max) {
            return Err(ChangesError::TooLong { len, max });
        }
        push_span(&mut self.sections, from - self.end, to - from, insert)?;
        self.end = to;
        self.new_len = len as u32;
        Ok(())
    }

    /// Puts a change after the others, if it replaces a range that begins at or after their end. Whether it does.
    fn take(&mut self, change: &Change, max: u32) -> Result<bool, ChangesError>
        requires is_ascent { IsAscent self.old }
        requires over { IsOver self.old.len change.now }
        ensures taken { IfOk result (λ taken. IsTrue taken → Grows max self.old self.new (as_set self.old.len change.now)) }
        ensures left { IfOk result (λ taken. IsFalse taken → self.new ≡ self.old) }
        ensures refused { IfErr result (λ error. error ≢ ChangesError.NoMemory → IsTooLong max (then_also spelled (total_of self.old) (as_set self.old.len change.now)) error) }
    {
        match change {
            Change::Span { from, to, insert } => {
                if *from < self.end {
                    return Ok(false);
                }
                self.put(*from, *to, insert, max)?;
                Ok(true)
            }
            Change::Set(_) => Ok(false),
        }
    }

    /// The changes as one set.
    #[inline(always)]
    fn finish(self) -> Result<ChangeSet, AllocError>
        requires { IsAscent self }
        ensures { IfOk result (λ set. set ≡ total_of self) }
    {
        let Ascent {
            mut sections,
            end,
            len,
            new_len: _,
        } = self;
        push_section(&mut sections, Section::Keep(len - end))?;
        Ok(ChangeSet { sections })
    }
}

/// The set that the first of some changes of a document of `len` characters make, as far as each replaces a range that
/// begins at or after the end of the one before; and how many they are.
pub(crate) fn ascending(
    alloc: Global,
    changes: &[Change],
    len: u32,
    max: u32,
) -> Result<(ChangeSet, usize), ChangesError>
    requires sound { first_fault len 0 changes.now ≡ None }
    requires short { len ≤ max }
    ensures total { IfOk result (λ r. IsTotal len max r.1 r.0 changes.now) }
    ensures within { IfOk result (λ r. r.1 ≤ length changes.now) }
    ensures refused { IfErr result (λ error. error ≢ ChangesError.NoMemory → refusal len max changes.now ≡ Some error) }
{
    let mut ascent = Ascent::new(alloc, len);
    for (count, change) in changes.iter().enumerate() {
        if !ascent.take(change, max)? {
            let total = ascent.finish()?;
            return Ok((total, count));
        }
    }
    let total = ascent.finish()?;
    Ok((total, changes.len()))
}
