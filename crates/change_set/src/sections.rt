ghost use Rattle.std.specs.Prelude.{◌≡◌, ◌<◌, ◌+◌, ◌^◌, ◌∷◌, ◌++◌, [], IfOk, OnOk};
ghost use Rattle.change_desc.specs.Sections.{spelled, measured, is_blank, joined, joins, kind, normal, old_of, old_size, new_of, new_size};
ghost use Rattle.change_set.specs.Same.{same_section, same_sections};

use crate::inserted_text::InsertedText;
use change_desc::Section;
use smallvec::SmallVec;
use std::alloc::AllocError;

/// Sections of which three lie in the value itself, the most that one change makes; more lie on the heap.
pub(crate) type Sections = SmallVec<Section<InsertedText>, 3>;

/// How many characters a section gives to the new document.
pub(crate) fn new_len(section: &Section<InsertedText>) -> u32
    ensures { result ≡ new_of spelled section.now }
{
    match section {
        Section::Keep(count) => *count,
        Section::Replace(_, text) => text.len(),
    }
}

/// The section with its text known by the length alone.
pub(crate) fn measured(section: &Section<InsertedText>) -> Section<u32>
    ensures { result ≡ measured spelled section.now }
{
    match section {
        Section::Keep(count) => Section::Keep(*count),
        Section::Replace(count, text) => Section::Replace(*count, text.len()),
    }
}

/// The section once more.
pub(crate) fn copied(section: &Section<InsertedText>) -> Result<Section<InsertedText>, AllocError>
    ensures { IfOk result (λ copy. copy ≡ section.now) }
{
    match section {
        Section::Keep(count) => Ok(Section::Keep(*count)),
        Section::Replace(count, text) => {
            let text = text.try_copy()?;
            Ok(Section::Replace(*count, text))
        }
    }
}

/// Whether two sections keep as many characters, or replace as many by the same text.
fn same_section(mine: &Section<InsertedText>, theirs: &Section<InsertedText>) -> bool
    ensures { result ≡ same_section mine.now theirs.now }
{
    match mine {
        Section::Keep(count) => match theirs {
            Section::Keep(other) => *count == *other,
            Section::Replace(_, _) => false,
        },
        Section::Replace(count, text) => match theirs {
            Section::Keep(_) => false,
            Section::Replace(other, more) => *count == *other && text.same(more),
        },
    }
}

/// Whether two lists have the same sections, with the same texts.
pub(crate) fn same_sections(
    mine: &[Section<InsertedText>],
    theirs: &[Section<InsertedText>],
) -> bool
    ensures { result ≡ same_sections mine.now theirs.now }
{
    if mine.len() != theirs.len() {
        return false;
    }
    for (index, section) in mine.iter().enumerate() {
        if !same_section(section, &theirs[index]) {
            return false;
        }
    }
    true
}

/// Whether a section keeps nothing and replaces nothing.
fn does_nothing(section: &Section<InsertedText>) -> bool
    ensures { result ≡ is_blank spelled section.now }
{
    match section {
        Section::Keep(count) => *count == 0,
        Section::Replace(count, text) => *count == 0 && text.is_empty(),
    }
}

/// Whether two sections in a row are one: two that keep, two pure insertions or two pure deletions.
fn are_one(first: &Section<InsertedText>, next: &Section<InsertedText>) -> bool
    ensures { result ≡ joins (kind spelled first.now) (kind spelled next.now) }
{
    match first {
        Section::Keep(_) => matches!(next, Section::Keep(_)),
        Section::Replace(count, text) => match next {
            Section::Keep(_) => false,
            Section::Replace(more, other) => {
                if *count == 0 || *more == 0 {
                    *count == *more
                } else {
                    text.is_empty() && other.is_empty()
                }
            }
        },
    }
}

/// Two sections in a row as one.
fn joined(
    first: Section<InsertedText>,
    next: Section<InsertedText>,
) -> Result<Section<InsertedText>, AllocError>
    requires old_fits { old_of first + old_of next < 2 ^ 32 }
    requires new_fits { new_of spelled first + new_of spelled next < 2 ^ 32 }
    ensures { IfOk result (λ both. both ≡ joined spelled first next) }
{
    match first {
        Section::Keep(count) => match next {
            Section::Keep(more) => Ok(Section::Keep(count + more)),
            Section::Replace(_, _) => Ok(Section::Keep(count)),
        },
        Section::Replace(count, text) => match next {
            Section::Keep(_) => Ok(Section::Replace(count, text)),
            Section::Replace(more, other) => {
                let both = text.text().append(other.text())?;
                Ok(Section::Replace(count + more, InsertedText::of(both)))
            }
        },
    }
}

/// Puts a section after others in normal form.
pub(crate) fn push_section(
    sections: &mut Sections,
    section: Section<InsertedText>,
) -> Result<(), AllocError>
    requires is_normal { normal spelled sections.old.items ≡ sections.old.items }
    requires old_fits { old_size sections.old.items + old_of section < 2 ^ 32 }
    requires new_fits { new_size spelled sections.old.items + new_of spelled section < 2 ^ 32 }
    ensures { OnOk result (sections.new.items ≡ normal spelled (sections.old.items ++ section ∷ [])) }
{
    if does_nothing(&section) {
        return Ok(());
    }
    match sections.pop() {
        None => sections.push(section)?,
        Some(last) => {
            if are_one(&last, &section) {
                let both = joined(last, section)?;
                sections.push(both)?;
            } else {
                sections.push(last)?;
                sections.push(section)?;
            }
        }
    }
    Ok(())
}
