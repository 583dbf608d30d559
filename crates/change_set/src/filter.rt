ghost use Rattle.std.specs.Prelude.{◌≡◌, ◌<◌, ◌≤◌, ◌+◌, ◌-◌, ◌^◌, ◌++◌, ◌∷◌, [], IfOk, OnOk, length, slice_index_or};
ghost use Rattle.change_desc.specs.declared.section.Section.TheVariants.{Replace};
ghost use Rattle.change_desc.specs.Sections.{Sections, spelled, normal, old_of, new_of, old_size, new_size};
ghost use Rattle.change_set.specs.Protection.{HasRoom, half_from, half_within, run_section, taking};
ghost use Rattle.change_set.specs.Protected.{Apart, HasEnded};

use crate::half::Half;
use crate::inserted_text::InsertedText;
use crate::protection::{ended, is_inside, run_from};
use crate::sections::{Sections, push_section};
use change_desc::Section;
use line_tree::Text;
use smallvec::SmallVec;
use std::alloc::{AllocError, Global};

/// What a filter goes by: the half that it gives, and the protected ranges of a document of `len` characters.
#[derive(Clone, Copy, Drop)]
pub(crate) struct Filter<'a> {
    pub(crate) half: Half,
    pub(crate) ranges: &'a [(u32, u32)],
    pub(crate) len: u32,
}

/// Puts a run of deleted characters after what is done of a half: their deletion with a text, or characters that are kept.
fn push_run(
    done: &mut Sections,
    is_taken: bool,
    count: u32,
    text: InsertedText,
) -> Result<(), AllocError>
    requires is_normal { normal spelled done.old.items ≡ done.old.items }
    requires old_fits { old_size done.old.items + old_of (run_section is_taken count text) < 2 ^ 32 }
    requires new_fits { new_size spelled done.old.items + new_of spelled (run_section is_taken count text) < 2 ^ 32 }
    ensures { OnOk result (done.new.items ≡ normal spelled (done.old.items ++ run_section is_taken count text ∷ [])) }
{
    if is_taken {
        push_section(done, Section::Replace(count, text))
    } else {
        push_section(done, Section::Keep(count))
    }
}

/// Puts the deleted characters of a section from one place to another after what is done of a half, where its text is already
/// put. So many ranges end at or before the first place; the answer is how many end at or before the second.
fn push_runs(
    alloc: Global,
    done: &mut Sections,
    by: Filter,
    known: usize,
    from: u32,
    end: u32,
) -> Result<usize, AllocError>
    requires order { from ≤ end }
    requires within { end ≤ by.len }
    requires ended { HasEnded by.ranges.now known from }
    requires is_normal { normal spelled done.old.items ≡ done.old.items }
    requires room { (s : Sections) × HasRoom (half_within (taking by.half by.ranges.now by.len) done.old.items from (end - from) s) }
    ensures ended { IfOk result (λ known. HasEnded by.entry.ranges.now known end) }
    ensures is_normal { OnOk result (normal spelled done.new.items ≡ done.new.items) }
    ensures rest { OnOk result ((s : Sections) → half_from (taking by.entry.half by.entry.ranges.now by.entry.len) done.new.items end s ≡ half_within (taking by.entry.half by.entry.ranges.now by.entry.len) done.old.items from (end - from) s) }
{
    let mut pos = from;
    let mut count = known;
    'runs: while pos < end {
        count = ended(by.ranges, count, pos);
        let run = run_from(by.ranges, count, by.len, pos, end);
        let is_taken = by.half.takes(run.is_protected);
        let none = InsertedText::of(Text::empty(alloc)?);
        push_run(done, is_taken, run.to - pos, none)?;
        pos = run.to;
    }
    Ok(count)
}

/// Puts a section that deletes characters after what is done of a half: run by run, its text with the first. So many ranges
/// end at or before the section; the answer is how many end at or before its end.
fn push_deletion(
    alloc: Global,
    done: &mut Sections,
    by: Filter,
    known: usize,
    at: u32,
    count: u32,
    text: &InsertedText,
) -> Result<usize, AllocError>
    requires some { 0 < count }
    requires within { at + count ≤ by.len }
    requires ended { HasEnded by.ranges.now known at }
    requires next { known < length by.ranges.now → at < (slice_index_or by.ranges.now known (0, 0)).1 }
    requires is_normal { normal spelled done.old.items ≡ done.old.items }
    requires room { (s : Sections) × HasRoom (half_from (taking by.half by.ranges.now by.len) done.old.items at (Replace count text.now ∷ s)) }
    ensures ended { IfOk result (λ known. HasEnded by.entry.ranges.now known (at + count)) }
    ensures is_normal { OnOk result (normal spelled done.new.items ≡ done.new.items) }
    ensures rest { OnOk result ((s : Sections) → half_from (taking by.entry.half by.entry.ranges.now by.entry.len) done.new.items (at + count) s ≡ half_from (taking by.entry.half by.entry.ranges.now by.entry.len) done.old.items at (Replace count text.now ∷ s)) }
{
    let end = at + count;
    let run = run_from(by.ranges, known, by.len, at, end);
    let is_taken = by.half.takes(run.is_protected);
    let copy = text.try_copy()?;
    push_run(done, is_taken, run.to - at, copy)?;
    let reached = push_runs(alloc, done, by, known, run.to, end)?;
    Ok(reached)
}

/// Puts what a half has of a section after what is done of it. So many ranges end at or before the section; the answer is how
/// many end at or before its end.
fn push_filtered(
    alloc: Global,
    done: &mut Sections,
    by: Filter,
    known: usize,
    at: u32,
    section: &Section<InsertedText>,
) -> Result<usize, AllocError>
    requires within { at + old_of section.now ≤ by.len }
    requires apart { Apart 0 by.ranges.now }
    requires ended { HasEnded by.ranges.now known at }
    requires is_normal { normal spelled done.old.items ≡ done.old.items }
    requires room { (s : Sections) × HasRoom (half_from (taking by.half by.ranges.now by.len) done.old.items at (section.now ∷ s)) }
    ensures ended { IfOk result (λ known. HasEnded by.entry.ranges.now known (at + old_of section.now)) }
    ensures is_normal { OnOk result (normal spelled done.new.items ≡ done.new.items) }
    ensures rest { OnOk result ((s : Sections) → half_from (taking by.entry.half by.entry.ranges.now by.entry.len) done.new.items (at + old_of section.now) s ≡ half_from (taking by.entry.half by.entry.ranges.now by.entry.len) done.old.items at (section.now ∷ s)) }
{
    let count = ended(by.ranges, known, at);
    match section {
        Section::Keep(kept) => {
            push_section(done, Section::Keep(*kept))?;
            Ok(count)
        }
        Section::Replace(gone, text) => {
            if *gone > 0 {
                let reached = push_deletion(alloc, done, by, count, at, *gone, text)?;
                return Ok(reached);
            }
            if by.half.takes(is_inside(by.ranges, count, by.len, at)) {
                let copy = text.try_copy()?;
                push_section(done, Section::Replace(0, copy))?;
            }
            Ok(count)
        }
    }
}

/// One half of some sections over a document of `len` characters, of which some ranges are protected.
pub(crate) fn filtered(
    alloc: Global,
    half: Half,
    ranges: &[(u32, u32)],
    len: u32,
    sections: &[Section<InsertedText>],
) -> Result<Sections, AllocError>
    requires apart { Apart 0 ranges.now }
    requires len { old_size sections.now ≡ len }
    requires room { HasRoom (half_from (taking half ranges.now len) [] 0 sections.now) }
    ensures { IfOk result (λ done. done.items ≡ half_from (taking half ranges.now len) [] 0 sections.now) }
{
    let by = Filter { half, ranges, len };
    let mut done = SmallVec::new(alloc);
    let mut at = 0;
    let mut known = 0;
    for section in sections {
        known = push_filtered(alloc, &mut done, by, known, at, section)?;
        at += section.old_len();
    }
    Ok(done)
}
