ghost use Rattle.std.specs.Prelude.{Bool, IfOk, IfSome, IsOk, List, OnErr, OnOk, [], length, ℕ, ◌+◌, ◌++◌, ◌<◌, ◌^◌, ◌∷◌, ◌≡◌, ◌≤◌};
ghost use Rattle.change_desc.specs.declared.section.Section.{Section};
ghost use Rattle.change_desc.specs.Compose.{compose};
ghost use Rattle.change_desc.specs.Map.{map_over};
ghost use Rattle.change_desc.specs.Positions.{is_negative, map_pos};
ghost use Rattle.change_desc.specs.Ranges.{changed_ranges, changes_nothing, replaced, touches};
ghost use Rattle.change_desc.specs.Sections.{IsSet, counted, inverted, new_of, new_size, normal, old_of, old_size};

use crate::changed_range::ChangedRanges;
use crate::compose::compose_sections;
use crate::map::{map_sections, mapped_len};
use crate::map_mode::MapMode;
use crate::positions::{is_lost, place};
use crate::ranges::{changes_nothing, individual_ranges, touches, united_ranges};
use crate::section::Section;
use crate::sections::{copied_sections, inverted_sections, new_len, old_len, push_section};
use crate::touch::Touch;
use smallvec::SmallVec;
use std::alloc::{AllocError, Global};
use std::marker::Model;

/// A description of changes to a text: which characters are kept, and which are replaced by how many (Reference Manual,
/// ChangeDesc). It is a list of sections over the whole old text, in normal form, and both texts have fewer than 2 ^ 32
/// characters. Positions and lengths are in characters, a line break being one. It keeps its allocator; up to eight sections
/// take no memory.
#[derive(Drop)]
pub struct Desc {
    pub(crate) sections: SmallVec<Section<u32>, 8>,
}

impl Model for Desc {
    ghost Value = { List (Section ℕ) };

    ghost view = { λ d. d.sections.items };

    ghost invariant = { λ d. IsSet counted d.sections.items };
}

impl Desc {
    /// The description over the empty text, to which sections are pushed.
    pub fn new(alloc: Global) -> Desc
        ensures { result ≡ [] }
    {
        Desc {
            sections: SmallVec::new(alloc),
        }
    }

    /// The description that keeps all of a text of `len` characters.
    pub fn keep(alloc: Global, len: u32) -> Desc
        ensures { result ≡ normal counted (Section.Keep len ∷ []) }
    {
        let mut sections = SmallVec::new(alloc);
        if len > 0 {
            sections.push_reserved(Section::Keep(len));
        }
        Desc { sections }
    }

    /// Puts a section over further characters of the old text after the others, in normal form: one that does nothing is left
    /// out, and one that joins the last is made one with it. When out of memory nothing changes.
    #[inline(always)]
    pub fn push(&mut self, section: Section<u32>) -> Result<(), AllocError>
        requires old_fits { old_size self.old + old_of section < 2 ^ 32 }
        requires new_fits { new_size counted self.old + new_of counted section < 2 ^ 32 }
        ensures ok { OnOk result (self.new ≡ normal counted (self.old ++ section ∷ [])) }
        ensures err { OnErr result (self.new ≡ self.old) }
    {
        push_section(&mut self.sections, section)?;
        Ok(())
    }

    /// The sections, from left to right.
    pub fn sections(&self) -> &[Section<u32>]
        ensures { result.now ≡ self.now }
    {
        self.sections.as_slice()
    }

    /// How many characters the old text has.
    pub fn len(&self) -> u32
        ensures { result ≡ old_size self.now }
    {
        old_len(self.sections.as_slice())
    }

    /// How many characters the new text has.
    pub fn new_len(&self) -> u32
        ensures { result ≡ new_size counted self.now }
    {
        new_len(self.sections.as_slice())
    }

    /// Whether all is kept (Reference Manual, ChangeDesc.empty).
    pub fn is_empty(&self) -> bool
        ensures { result ≡ changes_nothing self.now }
    {
        changes_nothing(self.sections.as_slice())
    }

    /// Where a position of the old text goes, unless what the mode tracks there is deleted (Reference Manual,
    /// ChangeDesc.mapPos). At an insertion a negative side stays before it, any other goes after it; strictly inside a
    /// replacement a negative side gives its start and any other its end.
    pub fn map_pos(&self, pos: u32, side: i32, mode: MapMode) -> Option<u32>
        requires { pos ≤ old_size self.now }
        ensures value { result ≡ map_pos counted self.now pos (is_negative side) mode }
        ensures inside { IfSome result (λ place. place ≤ new_size counted self.now) }
    {
        if is_lost(self.sections.as_slice(), pos, mode) {
            None
        } else {
            Some(place(self.sections.as_slice(), pos, side < 0))
        }
    }

    /// How the replaced ranges meet the range of the old text from `from` to `to` (Reference Manual,
    /// ChangeDesc.touchesRange).
    pub fn touches(&self, from: u32, to: u32) -> Touch
        ensures { result ≡ touches from to (replaced self.now) }
    {
        touches(self.sections.as_slice(), from, to)
    }

    /// The replaced ranges, from left to right: each by itself, or those that touch as one (Reference Manual,
    /// ChangeDesc.iterChangedRanges).
    #[inline(always)]
    pub fn ranges(&self, individual: bool) -> Result<ChangedRanges, AllocError>
        ensures { IfOk result (λ ranges. ranges.items ≡ changed_ranges individual self.now) }
    {
        let alloc = *self.sections.allocator();
        if individual {
            individual_ranges(alloc, self.sections.as_slice())
        } else {
            united_ranges(alloc, self.sections.as_slice())
        }
    }

    /// These changes and then `next`, which start where these end (Reference Manual, ChangeDesc.composeDesc).
    pub fn compose(&self, next: &Desc) -> Result<Desc, AllocError>
        requires { new_size counted self.now ≡ old_size next.now }
        ensures { IfOk result (λ both. both ≡ compose counted self.now next.now) }
    {
        let alloc = *self.sections.allocator();
        let sections = compose_sections(alloc, self.sections.as_slice(), next.sections.as_slice())?;
        Ok(Desc { sections })
    }

    /// These changes over the new text of `other`, which starts in the same text (Reference Manual, ChangeDesc.mapDesc).
    /// Where texts meet, those of `other` stand first, unless `before` holds.
    pub fn map(&self, other: &Desc, before: bool) -> Result<Desc, AllocError>
        requires meet { old_size other.now ≡ old_size self.now }
        requires fits { new_size counted (map_over counted self.now other.now before) < 2 ^ 32 }
        ensures { IfOk result (λ mapped. mapped ≡ map_over counted self.now other.now before) }
    {
        let alloc = *self.sections.allocator();
        let sections = map_sections(
            alloc,
            other.sections.as_slice(),
            self.sections.as_slice(),
            before,
        )?;
        Ok(Desc { sections })
    }

    /// How many characters the new text of `map` has, with `before` or without; where it is 2 ^ 32 or more, `map` can't be
    /// called.
    pub fn mapped_len(&self, other: &Desc) -> u64
        requires { old_size other.now ≡ old_size self.now }
        ensures { (before : Bool) → result ≡ new_size counted (map_over counted self.now other.now before) }
    {
        mapped_len(other.sections.as_slice(), self.sections.as_slice())
    }

    /// The way back: from the new text to the old one (Reference Manual, ChangeDesc.invertedDesc).
    pub fn inverted(&self) -> Result<Desc, AllocError>
        ensures { IfOk result (λ back. back ≡ inverted self.now) }
    {
        let sections = inverted_sections(&self.sections)?;
        Ok(Desc { sections })
    }

    /// A copy, which always succeeds where there are at most eight sections.
    pub fn try_copy(&self) -> Result<Desc, AllocError>
        ensures ok { IfOk result (λ copy. copy ≡ self.now) }
        ensures few { length self.now ≤ 8 → IsOk result }
    {
        let sections = copied_sections(&self.sections)?;
        Ok(Desc { sections })
    }
}
