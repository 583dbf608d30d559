ghost use Rattle.std.specs.Prelude.{◌≡◌, ◌≢◌, ◌≤◌, ◌<◌, ◌+◌, ◌-◌, ◌^◌, ◌∷◌, [], length, IfOk, IfErr, Some, None, ◌↔◌, IsTrue};
ghost use Rattle.change_desc.specs.declared.section.Section.TheVariants.{Keep};
ghost use Rattle.change_desc.specs.Sections.{spelled, counted, old_size, new_size, normal, lengths, apply, invert, inverted};
ghost use Rattle.change_desc.specs.Compose.{compose};
ghost use Rattle.change_desc.specs.Map.{map_over};
ghost use Rattle.change_desc.specs.Of.{of, span};
ghost use Rattle.change_desc.specs.Filter.{filter_kept, filter_dropped};
ghost use Rattle.change_set.specs.Changes.{as_sets};
ghost use Rattle.change_desc.specs.Laws.{AppliesInTurn, CutsAreShared, DescribesComposed, DescribesMapped, LeadsBack, Merges};
ghost use Rattle.change_desc.specs.Ranges.{changes_nothing};
ghost use Rattle.change_set.specs.Protected.{Apart};
ghost use Rattle.change_set.specs.Refusals.{refusal};
ghost use Rattle.change_set.specs.Texts.{written};
ghost use Rattle.change_set.specs.Protection.{half_from, taking};
ghost use Rattle.change_set.specs.Same.{same_sections};

use crate::ascent::{ascending, push_span};
use crate::change::{Change, first_fault};
use crate::error::ChangesError;
use crate::filter::filtered;
use crate::filter_len::half_len;
use crate::filtered::Filtered;
use crate::half::Half;
use crate::inserted_text::InsertedText;
use crate::only_replace::only_replace;
use crate::protection::joined;
use crate::sections::{Sections, copied, measured, new_len, push_section, same_sections};
use crate::texts::{applied, filled, texts_between, turned, written};
use change_desc::{Desc, Section};
use line_tree::{Text, TextCursor};
use smallvec::SmallVec;
use std::alloc::{AllocError, Global};
use std::marker::Model;

/// A set of changes over a document (Reference Manual: ChangeSet). Its sections cover the whole old document: so many
/// characters kept, or so many replaced by a text. Lengths are in characters. Up to three sections lie in the set itself, more,
/// and the texts, on the heap.
#[derive(Drop)]
pub struct ChangeSet {
    pub(crate) sections: Sections,
}

impl Model for ChangeSet {
    ghost use Rattle.std.specs.Prelude.{List, ℕ};
    ghost use Rattle.change_desc.specs.declared.section.Section.{Section};
    ghost use Rattle.change_desc.specs.Sections.{spelled, IsSet};

    ghost Value = { List (Section (List ℕ)) };

    ghost view = { λ s. s.sections.items };

    ghost invariant = { λ s. IsSet spelled s.sections.items };
}

impl ChangeSet {
    /// The set that several changes of one document make, in any order and also where they overlap: each change moves
    /// over those before it and is put after them (ChangeSet.of). `len` is the document's length, and no running total
    /// may lead to a text longer than `max`, the set that keeps all being the first of them. `Err`: the first change
    /// whose range is reversed or ends past the document, or whose set is over another length; else the first running
    /// total that is too long; or out of memory.
    #[inline(always)]
    pub fn of(
        alloc: Global,
        changes: &[Change],
        len: u32,
        max: u32,
    ) -> Result<ChangeSet, ChangesError>
        ensures set { IfOk result (λ set. set ≡ of spelled len (as_sets len changes.now)) }
        ensures starts { IfOk result (λ set. old_size set ≡ len) }
        ensures short { IfOk result (λ set. new_size spelled set ≤ max) }
        ensures accepted { IfOk result (λ _. refusal len max changes.now ≡ None) }
        ensures refused { IfErr result (λ error. error ≢ ChangesError.NoMemory → refusal len max changes.now ≡ Some error) }
    {
        if let Some(error) = first_fault(changes, len) {
            return Err(error);
        }
        if len > max {
            return Err(ChangesError::TooLong {
                len: u64::from(len),
                max,
            });
        }
        let (start, taken) = ascending(alloc, changes, len, max)?;
        let mut total = start;
        let mut index = taken;
        'rest: while index < changes.len() {
            total = total.with_change(&changes[index], max)?;
            index += 1;
        }
        Ok(total)
    }

    /// The set that keeps a whole document of `len` characters (ChangeSet.empty). `Err`: out of memory.
    pub fn empty(alloc: Global, len: u32) -> Result<ChangeSet, AllocError>
        ensures { IfOk result (λ set. set ≡ normal spelled (Keep len ∷ [])) }
    {
        let mut sections = SmallVec::new(alloc);
        push_section(&mut sections, Section::Keep(len))?;
        Ok(ChangeSet { sections })
    }

    /// The old document's length in characters (ChangeDesc.length).
    pub fn len(&self) -> u32
        ensures { result ≡ old_size self.now }
    {
        let mut len = 0;
        for section in self.sections.as_slice() {
            len += section.old_len();
        }
        len
    }

    /// The new document's length in characters (ChangeDesc.newLength).
    pub fn new_len(&self) -> u32
        ensures { result ≡ new_size spelled self.now }
    {
        let mut len = 0;
        for section in self.sections.as_slice() {
            len += new_len(section);
        }
        len
    }

    /// Whether it keeps the whole document (ChangeDesc.empty).
    pub fn is_empty(&self) -> bool
        ensures { result ≡ changes_nothing self.now }
    {
        for section in self.sections.as_slice() {
            if let Section::Replace(_, _) = section {
                return false;
            }
        }
        true
    }

    /// The sections from left to right.
    pub fn sections(&self) -> &[Section<InsertedText>]
        ensures { result.now ≡ self.now }
    {
        self.sections.as_slice()
    }

    /// The new document over an old one (ChangeSet.apply). `Err`: out of memory.
    #[inline(always)]
    pub fn apply(&self, document: &Text) -> Result<Text, AllocError>
        requires { old_size self.now ≡ length document.now.characters }
        ensures { IfOk result (λ text. text.characters ≡ apply self.now document.now.characters) }
    {
        if self.is_empty() {
            return document.try_copy();
        }
        let sections = self.sections.as_slice();
        match only_replace(sections) {
            Some(replace) => document.replace(replace.from, replace.to, replace.text),
            None => applied(*self.sections.allocator(), sections, document),
        }
    }

    /// This set and then the next, as one set (ChangeSet.compose). `Err`: out of memory.
    pub fn compose(&self, next: &ChangeSet) -> Result<ChangeSet, AllocError>
        requires { new_size spelled self.now ≡ old_size next.now }
        ensures both { IfOk result (λ both. both ≡ compose spelled self.now next.now) }
        ensures starts { IfOk result (λ both. old_size both ≡ old_size self.now) }
        ensures ends { IfOk result (λ both. new_size spelled both ≡ new_size spelled next.now) }
        ensures in_turn { IfOk result (λ both. AppliesInTurn self.now next.now both) }
        ensures shared { IfOk result (λ both. CutsAreShared self.now next.now both) }
        ensures described { IfOk result (λ both. DescribesComposed self.now next.now both) }
    {
        let lengths = self.composed_lengths(next)?;
        let text = self.composed_text(next)?;
        let sections = filled(*self.sections.allocator(), lengths.sections(), &text)?;
        Ok(ChangeSet { sections })
    }

    /// This set over the new document of other changes of the same document (ChangeSet.map). Where texts meet, those of
    /// the other changes stand first, unless `before` holds. `Err`: out of memory.
    pub fn map(&self, over: &Desc, before: bool) -> Result<ChangeSet, AllocError>
        requires meet { old_size over.now ≡ old_size self.now }
        requires fits { new_size spelled (map_over spelled self.now over.now before) < 2 ^ 32 }
        ensures mapped { IfOk result (λ mapped. mapped ≡ map_over spelled self.now over.now before) }
        ensures starts { IfOk result (λ mapped. old_size mapped ≡ new_size counted over.now) }
        ensures merges { IfOk result (λ mapped. Merges self.now mapped over.now before) }
        ensures described { IfOk result (λ mapped. DescribesMapped self.now mapped over.now before) }
    {
        let lengths = self.mapped_lengths(over, before)?;
        let text = self.own_text()?;
        let sections = filled(*self.sections.allocator(), lengths.sections(), &text)?;
        Ok(ChangeSet { sections })
    }

    /// The set that leads from the new document back to the old one, which is given (ChangeSet.invert). `Err`: out of
    /// memory.
    pub fn invert(&self, document: &Text) -> Result<ChangeSet, AllocError>
        requires { old_size self.now ≡ length document.now.characters }
        ensures back { IfOk result (λ back. back ≡ invert self.now document.now.characters) }
        ensures leads_back { IfOk result (λ back. LeadsBack self.now back document.now.characters) }
    {
        let mut sections = SmallVec::new(*self.sections.allocator());
        let mut cursor = TextCursor::new(document);
        for section in self.sections.as_slice() {
            let back = turned(section, &mut cursor)?;
            sections.push(back)?;
        }
        Ok(ChangeSet { sections })
    }

    /// The same changes with each text known by its length alone (ChangeSet.desc). `Err`: out of memory.
    #[inline(always)]
    pub fn desc(&self) -> Result<Desc, AllocError>
        ensures { IfOk result (λ desc. desc ≡ lengths spelled self.now) }
    {
        let mut desc = Desc::new(*self.sections.allocator());
        for section in self.sections.as_slice() {
            desc.push(measured(section))?;
        }
        Ok(desc)
    }

    /// What stays of the changes where some ranges of the old document are protected, and what is dropped
    /// (EditorState.changeFilter). A deleted character inside a range stays in the document; a pure insertion strictly
    /// inside one is dropped; a replacement's text shares the fate of its first deleted character. Ranges are cut to
    /// the document, empty or reversed ones are passed over, and those that overlap or touch count as one. `Err`:
    /// out of memory.
    pub fn filter(&self, protected: &[(u32, u32)]) -> Result<Filtered, AllocError>
        requires kept_fits { new_size spelled (filter_kept spelled protected.now self.now) < 2 ^ 32 }
        requires dropped_fits { new_size spelled (filter_dropped spelled protected.now self.now) < 2 ^ 32 }
        ensures kept { IfOk result (λ halves. halves.kept ≡ filter_kept spelled protected.now self.now) }
        ensures dropped { IfOk result (λ halves. halves.dropped ≡ filter_dropped spelled protected.now self.now) }
        ensures kept_starts { IfOk result (λ halves. old_size halves.kept ≡ old_size self.now) }
        ensures dropped_starts { IfOk result (λ halves. old_size halves.dropped ≡ old_size self.now) }
    {
        let ranges = joined(*self.sections.allocator(), protected)?;
        let kept = self.half(Half::Kept, ranges.as_slice())?;
        let dropped = self.half(Half::Dropped, ranges.as_slice())?;
        Ok(Filtered { kept, dropped })
    }

    /// How many characters the new texts have of what `filter` lets stay and of what it drops; where either is 2 ^ 32 or more,
    /// `filter` can't be called. `Err`: out of memory.
    pub fn filtered_lens(&self, protected: &[(u32, u32)]) -> Result<(u64, u64), AllocError>
        ensures kept { IfOk result (λ lens. lens.0 ≡ new_size spelled (filter_kept spelled protected.now self.now)) }
        ensures dropped { IfOk result (λ lens. lens.1 ≡ new_size spelled (filter_dropped spelled protected.now self.now)) }
    {
        let ranges = joined(*self.sections.allocator(), protected)?;
        let sections = self.sections.as_slice();
        let kept = half_len(Half::Kept, ranges.as_slice(), self.len(), sections);
        let dropped = half_len(Half::Dropped, ranges.as_slice(), self.len(), sections);
        Ok((kept, dropped))
    }

    /// Whether both have the same sections, with the same texts.
    pub fn same(&self, other: &ChangeSet) -> bool
        ensures value { result ≡ same_sections self.now other.now }
        ensures equal { IsTrue result ↔ (self.now ≡ other.now) }
    {
        same_sections(self.sections.as_slice(), other.sections.as_slice())
    }

    /// The same set once more. `Err`: out of memory.
    #[inline(always)]
    pub fn try_copy(&self) -> Result<ChangeSet, AllocError>
        ensures { IfOk result (λ copy. copy ≡ self.now) }
    {
        let mut sections = SmallVec::new(*self.sections.allocator());
        for section in self.sections.as_slice() {
            let copy = copied(section)?;
            sections.push(copy)?;
        }
        Ok(ChangeSet { sections })
    }
}

impl ChangeSet {
    /// Where its memory comes from.
    pub(crate) fn allocator(&self) -> Global {
        *self.sections.allocator()
    }

    /// The set that replaces a range of a document of `len` characters.
    pub(crate) fn span(
        alloc: Global,
        len: u32,
        from: u32,
        to: u32,
        insert: &InsertedText,
    ) -> Result<ChangeSet, AllocError>
        requires order { from ≤ to }
        requires within { to ≤ len }
        requires fits { len - (to - from) + length insert.now < 2 ^ 32 }
        ensures { IfOk result (λ set. set ≡ span spelled len from to insert.now) }
    {
        let mut sections = SmallVec::new(alloc);
        push_span(&mut sections, from, to - from, insert)?;
        push_section(&mut sections, Section::Keep(len - to))?;
        Ok(ChangeSet { sections })
    }

    /// One of the two halves that a filter gives, where the protected ranges are joined.
    fn half(&self, half: Half, ranges: &[(u32, u32)]) -> Result<ChangeSet, AllocError>
        requires apart { Apart 0 ranges.now }
        requires fits { new_size spelled (half_from (taking half ranges.now (old_size self.now)) [] 0 self.now) < 2 ^ 32 }
        ensures value { IfOk result (λ set. set ≡ half_from (taking half ranges.now (old_size self.now)) [] 0 self.now) }
        ensures starts { IfOk result (λ set. old_size set ≡ old_size self.now) }
    {
        let alloc = *self.sections.allocator();
        let sections = filtered(alloc, half, ranges, self.len(), self.sections.as_slice())?;
        Ok(ChangeSet { sections })
    }

    /// The texts that it puts in, one after the other.
    fn own_text(&self) -> Result<Text, AllocError>
        ensures { IfOk result (λ text. text.characters ≡ written self.now) }
    {
        let sections = self.sections.as_slice();
        match only_replace(sections) {
            Some(replace) => replace.text.try_copy(),
            None => written(*self.sections.allocator(), sections),
        }
    }

    /// The lengths of this set and then the next.
    fn composed_lengths(&self, next: &ChangeSet) -> Result<Desc, AllocError>
        requires { new_size spelled self.now ≡ old_size next.now }
        ensures { IfOk result (λ both. both ≡ lengths spelled (compose spelled self.now next.now)) }
    {
        let first = self.desc()?;
        let second = next.desc()?;
        first.compose(&second)
    }

    /// The lengths of the way back.
    fn back_lengths(&self) -> Result<Desc, AllocError>
        ensures { IfOk result (λ back. back ≡ inverted (lengths spelled self.now)) }
    {
        let lengths = self.desc()?;
        lengths.inverted()
    }

    /// The texts of this set and then the next, one after the other.
    fn composed_text(&self, next: &ChangeSet) -> Result<Text, AllocError>
        requires { new_size spelled self.now ≡ old_size next.now }
        ensures { IfOk result (λ text. text.characters ≡ written (compose spelled self.now next.now)) }
    {
        let back = self.back_lengths()?;
        let own = self.own_text()?;
        texts_between(
            *self.sections.allocator(),
            back.sections(),
            &own,
            next.sections.as_slice(),
        )
    }

    /// The lengths of this set over the new document of other changes.
    fn mapped_lengths(&self, over: &Desc, before: bool) -> Result<Desc, AllocError>
        requires meet { old_size over.now ≡ old_size self.now }
        requires fits { new_size spelled (map_over spelled self.now over.now before) < 2 ^ 32 }
        ensures { IfOk result (λ mapped. mapped ≡ lengths spelled (map_over spelled self.now over.now before)) }
    {
        let own = self.desc()?;
        own.map(over, before)
    }
}
