ghost use Rattle.std.specs.Prelude.{◌≡◌, ◌<◌, ◌≤◌, ◌+◌, ◌^◌, ◌++◌, length, take, drop, IfOk, OnOk};
ghost use Rattle.change_desc.specs.Sections.{spelled, old_of, new_of, old_size, new_size, apply};
ghost use Rattle.change_set.specs.Texts.{written, filled, text_total, text_of_section, texts_between, kept_marks, unmarked};
ghost use Rattle.change_set.specs.Walks.{given_by, turned_at};

use crate::inserted_text::InsertedText;
use crate::place::Place;
use crate::sections::Sections;
use change_desc::Section;
use line_tree::{Text, TextBuilder, TextCursor};
use smallvec::SmallVec;
use std::alloc::{AllocError, Global};

/// The texts that a set puts in, one after the other.
pub(crate) fn written(alloc: Global, sections: &[Section<InsertedText>]) -> Result<Text, AllocError>
    requires { length (written sections.now) < 2 ^ 32 }
    ensures { IfOk result (λ text. text.characters ≡ written sections.now) }
{
    let mut builder = TextBuilder::new(alloc);
    for section in sections {
        if let Section::Replace(_, inserted) = section {
            builder.push_text(inserted.text())?;
        }
    }
    builder.finish()
}

/// The text of the next characters.
#[inline(always)]
pub(crate) fn next_text(cursor: &mut TextCursor<'_>, len: u32) -> Result<InsertedText, AllocError>
    requires { len ≤ length cursor.old }
    ensures text { IfOk result (λ text. text ≡ take len cursor.old) }
    ensures left { OnOk result (cursor.new ≡ drop len cursor.old) }
{
    let text = cursor.next_text(len)?;
    Ok(InsertedText::of(text))
}

/// Sections with texts of the given lengths, cut from a row of texts.
pub(crate) fn filled(
    alloc: Global,
    lengths: &[Section<u32>],
    text: &Text,
) -> Result<Sections, AllocError>
    requires { text_total lengths.now ≡ length text.now.characters }
    ensures { IfOk result (λ sections. sections.items ≡ filled lengths.now text.now.characters) }
{
    let mut sections = SmallVec::new(alloc);
    let mut cursor = TextCursor::new(text);
    for section in lengths {
        match section {
            Section::Keep(count) => sections.push(Section::Keep(*count))?,
            Section::Replace(count, len) => {
                let text = next_text(&mut cursor, *len)?;
                sections.push(Section::Replace(*count, text))?;
            }
        }
    }
    Ok(sections)
}

/// Puts into a text what a section of the second of two sets takes: the next characters that the first set puts in, where
/// it keeps them, or its own text.
fn put_between(
    section: &Section<InsertedText>,
    count: u32,
    cursor: &mut TextCursor<'_>,
    builder: &mut TextBuilder,
) -> Result<(), AllocError>
    requires within { count ≤ length cursor.old }
    requires fits { length builder.old + length (text_of_section count cursor.old section.now) < 2 ^ 32 }
    ensures left { OnOk result (cursor.new ≡ drop count cursor.old) }
    ensures put { OnOk result (builder.new ≡ builder.old ++ text_of_section count cursor.old section.now) }
{
    match section {
        Section::Keep(_) => cursor.copy_to(count, builder),
        Section::Replace(_, inserted) => {
            cursor.skip(count);
            builder.push_text(inserted.text())
        }
    }
}

/// The texts of two sets one after the other. The first is known by the way back, which keeps what it keeps, and by its
/// texts in a row.
pub(crate) fn texts_between(
    alloc: Global,
    back: &[Section<u32>],
    first: &Text,
    second: &[Section<InsertedText>],
) -> Result<Text, AllocError>
    requires meet { old_size back.now ≡ old_size second.now }
    requires texts { unmarked (kept_marks back.now) ≡ length first.now.characters }
    requires fits { length (texts_between (kept_marks back.now) first.now.characters second.now) < 2 ^ 32 }
    ensures { IfOk result (λ text. text.characters ≡ texts_between (kept_marks back.now) first.now.characters second.now) }
{
    let mut builder = TextBuilder::new(alloc);
    let mut cursor = TextCursor::new(first);
    let mut place = Place {
        index: 0,
        offset: 0,
    };
    for section in second {
        let count = section.old_len();
        let (next, kept) = place.pass(back, count);
        put_between(section, count - kept, &mut cursor, &mut builder)?;
        place = next;
    }
    builder.finish()
}

/// Puts into a text what a section gives over the rest of a document.
fn put_applied(
    section: &Section<InsertedText>,
    cursor: &mut TextCursor<'_>,
    builder: &mut TextBuilder,
) -> Result<(), AllocError>
    requires within { old_of section.now ≤ length cursor.old }
    requires fits { length builder.old + new_of spelled section.now < 2 ^ 32 }
    ensures left { OnOk result (cursor.new ≡ drop (old_of section.now) cursor.old) }
    ensures put { OnOk result (builder.new ≡ builder.old ++ given_by section.now cursor.old) }
{
    match section {
        Section::Keep(count) => cursor.copy_to(*count, builder),
        Section::Replace(count, inserted) => {
            cursor.skip(*count);
            builder.push_text(inserted.text())
        }
    }
}

/// The new document of sections over an old one.
pub(crate) fn applied(
    alloc: Global,
    sections: &[Section<InsertedText>],
    document: &Text,
) -> Result<Text, AllocError>
    requires meet { old_size sections.now ≡ length document.now.characters }
    requires fits { new_size spelled sections.now < 2 ^ 32 }
    ensures { IfOk result (λ text. text.characters ≡ apply sections.now document.now.characters) }
{
    let mut builder = TextBuilder::new(alloc);
    let mut cursor = TextCursor::new(document);
    for section in sections {
        put_applied(section, &mut cursor, &mut builder)?;
    }
    builder.finish()
}

/// The section that leads back over the rest of an old document, which begins where the section does.
pub(crate) fn turned(
    section: &Section<InsertedText>,
    cursor: &mut TextCursor<'_>,
) -> Result<Section<InsertedText>, AllocError>
    requires { old_of section.now ≤ length cursor.old }
    ensures back { IfOk result (λ back. back ≡ turned_at cursor.old section.now) }
    ensures left { OnOk result (cursor.new ≡ drop (old_of section.now) cursor.old) }
{
    match section {
        Section::Keep(count) => {
            cursor.skip(*count);
            Ok(Section::Keep(*count))
        }
        Section::Replace(count, text) => {
            let old = next_text(cursor, *count)?;
            Ok(Section::Replace(text.len(), old))
        }
    }
}
