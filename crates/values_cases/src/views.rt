ghost use Rattle.std.specs.Prelude.{◌≡◌, ◌≤◌, length, IfOk, IfSome};
ghost use Rattle.line_tree.specs.Text.{max_len};
ghost use Rattle.change_desc.specs.Sections.{apply, old_size};
ghost use Rattle.selection.specs.Selections.{IsSelection, LieIn};
ghost use Rattle.values.specs.InRange.{AreInRange, IsInRange};

use crate::made::{Made, Of, plain_of, value_of};
use change_set::{Change, ChangeSet, InsertedText};
use cm_plain::{KeptEffect, Plain, Str};
use line_tree::{MAX_LEN, Text, cut_len};
use listed::Listed;
use selection::{Selection, first_outside};
use std::alloc::Global;
use std::test::Fail;
use transaction::Annotation;
use values::{Deps, Scene, SharedVal, ShownEffect, TrNotes, TrView};

fn text(alloc: Global, characters: &str) -> Result<Text, Fail>
    ensures { IfOk result (λ t. length t.characters ≤ max_len) }
{
    let characters = Str::of_text(alloc, characters)?;
    if cut_len(characters.chars()) > MAX_LEN as usize {
        return Err("a short text".into());
    }
    Ok(Text::of(alloc, characters.chars())?)
}

fn shared_of(alloc: Global, value: Made<'_>) -> Result<SharedVal, Fail> {
    Ok(SharedVal::new(alloc, value_of(alloc, value)?)?)
}

/// Reads, where `None` is an absent field.
fn reads(alloc: Global, values: &[Option<Made<'_>>]) -> Result<Vec<Option<SharedVal>>, Fail> {
    let mut reads = Vec::with_capacity(alloc, values.len())?;
    for value in values {
        match value {
            Some(value) => reads.push(Some(shared_of(alloc, *value)?))?,
            None => reads.push(None)?,
        }
    }
    Ok(reads)
}

/// What may be relied on in a read.
fn known_read(read: &Option<SharedVal>)
    ensures { IfSome read.now IsInRange }
{
    if let Some(value) = read {
        value.known();
    }
}

/// What may be relied on in reads.
fn known_reads(reads: &[Option<SharedVal>])
    ensures { AreInRange reads.now }
{
    for read in reads {
        known_read(read);
    }
}

/// Several facets and fields alone.
fn several(alloc: Global, reads: Vec<Option<SharedVal>>) -> Result<Deps, Fail> {
    known_reads(reads.as_slice());
    Ok(Deps::new(alloc, None, None, reads)?)
}

/// Facets and fields alone.
fn bare(alloc: Global, values: &[Option<Made<'_>>]) -> Result<Deps, Fail> {
    let mut reads = reads(alloc, values)?;
    if reads.len() > 1 {
        return several(alloc, reads);
    }
    match reads.pop() {
        Some(value) => Ok(Deps::of_value(value)),
        None => Ok(Deps::none()),
    }
}

/// A document alone.
fn document(alloc: Global, characters: &str) -> Result<Deps, Fail> {
    let text = text(alloc, characters)?;
    Ok(Deps::of_document(text))
}

/// A document and a cursor in it.
fn cursor(alloc: Global, characters: &str, head: u32) -> Result<Deps, Fail> {
    let text = text(alloc, characters)?;
    let selection = Selection::single(alloc, head, head)?;
    if first_outside(selection.ranges(), text.len()).is_some() {
        return Err("a place in the text".into());
    }
    selection.known();
    Ok(Deps::new(alloc, Some(text), Some(selection), Vec::new(alloc))?)
}

/// What a rule reads: a document, a document with a cursor, or values.
#[derive(Clone, Copy)]
pub(crate) enum Read<'a> {
    Document(&'a str),
    Cursor(&'a str, u32),
    Values(&'a [Option<Made<'a>>]),
}

pub(crate) fn deps_of(alloc: Global, read: Read<'_>) -> Result<Deps, Fail> {
    match read {
        Read::Document(characters) => document(alloc, characters),
        Read::Cursor(characters, head) => cursor(alloc, characters, head),
        Read::Values(values) => bare(alloc, values),
    }
}

/// What replaces characters of a text from a place up to a place.
#[derive(Clone, Copy)]
pub(crate) struct Typed<'a> {
    pub(crate) start: &'a str,
    pub(crate) from: u32,
    pub(crate) to: u32,
    pub(crate) insert: &'a str,
}

/// The text `ab`, and nothing replaced.
pub(crate) const IDLE: Typed<'static> = Typed {
    start: "ab",
    from: 0,
    to: 0,
    insert: "",
};

/// The text `ab`, and a `c` after it.
pub(crate) const TYPED: Typed<'static> = Typed {
    start: "ab",
    from: 2,
    to: 2,
    insert: "c",
};

fn effects(alloc: Global, values: Of<'_>) -> Result<Listed<ShownEffect>, Fail> {
    let mut effects = Listed::empty(alloc);
    for value in values.0 {
        effects.push(ShownEffect {
            id: 0,
            value: value_of(alloc, *value)?,
        })?;
    }
    Ok(effects)
}

/// What a transaction carries beside its effects: nothing, an annotation of a kind, or what undoes an effect, of kind 1.
#[derive(Clone, Copy)]
pub(crate) enum Note<'a> {
    None,
    Of(&'a str, Made<'a>),
    Undoes(i64),
}

fn inverted(alloc: Global, note: Note<'_>) -> Result<Listed<KeptEffect>, Fail> {
    let mut kept = Listed::empty(alloc);
    if let Note::Undoes(number) = note {
        kept.push(KeptEffect {
            id: 1,
            map: None,
            value: Plain::Int(number),
        })?;
    }
    Ok(kept)
}

fn annotations(alloc: Global, note: Note<'_>) -> Result<Listed<Annotation>, Fail> {
    let mut annotations = Listed::empty(alloc);
    if let Note::Of(kind, value) = note {
        let kind = Str::of_text(alloc, kind)?;
        let value = plain_of(alloc, value)?;
        annotations.push(Annotation { kind, value })?;
    }
    Ok(annotations)
}

fn notes(alloc: Global, values: Of<'_>, note: Note<'_>) -> Result<TrNotes, Fail> {
    let effects = effects(alloc, values)?;
    let inverted = inverted(alloc, note)?;
    Ok(TrNotes {
        effects,
        inverted,
        annotations: annotations(alloc, note)?,
    })
}

/// A document with a cursor.
fn scene(alloc: Global, document: Text, head: u32) -> Result<Scene, Fail>
    ensures document { IfOk result (λ scene. scene.document ≡ document) }
    ensures is_selection { IfOk result (λ scene. IsSelection scene.selection) }
    ensures inside { IfOk result (λ scene. LieIn (length document.characters) scene.selection.ranges) }
{
    let selection = Selection::single(alloc, head, head)?;
    if first_outside(selection.ranges(), document.len()).is_some() {
        return Err("a place in the text".into());
    }
    selection.known();
    Ok(Scene {
        document,
        selection,
    })
}

/// The start of what is typed, with a cursor before it.
fn start_of(alloc: Global, typed: Typed<'_>) -> Result<Scene, Fail>
    ensures short { IfOk result (λ scene. length scene.document.characters ≤ max_len) }
    ensures is_selection { IfOk result (λ scene. IsSelection scene.selection) }
    ensures inside { IfOk result (λ scene. LieIn (length scene.document.characters) scene.selection.ranges) }
{
    let document = text(alloc, typed.start)?;
    scene(alloc, document, 0)
}

/// The end of changes, with a cursor.
fn end_of(alloc: Global, changes: &ChangeSet, start: &Text, head: u32) -> Result<Scene, Fail>
    requires { old_size changes.now ≡ length start.now.characters }
    ensures document { IfOk result (λ scene. scene.document.characters ≡ apply changes.now start.now.characters) }
    ensures short { IfOk result (λ scene. length scene.document.characters ≤ max_len) }
    ensures is_selection { IfOk result (λ scene. IsSelection scene.selection) }
    ensures inside { IfOk result (λ scene. LieIn (length scene.document.characters) scene.selection.ranges) }
{
    let document = changes.apply(start)?;
    if document.len() > MAX_LEN {
        return Err("a short text".into());
    }
    scene(alloc, document, head)
}

/// The changes of a text of `len` characters.
fn changes(alloc: Global, typed: Typed<'_>, len: u32) -> Result<ChangeSet, Fail>
    ensures { IfOk result (λ changes. old_size changes ≡ len) }
{
    let insert = InsertedText::of(text(alloc, typed.insert)?);
    let change = [Change::Span {
        from: typed.from,
        to: typed.to,
        insert,
    }];
    Ok(ChangeSet::of(alloc, &change, len, MAX_LEN)?)
}

/// What is shown of a transaction with these notes, which gives a cursor or has one before the text.
fn viewed(
    alloc: Global,
    typed: Typed<'_>,
    given: Option<u32>,
    notes: TrNotes,
) -> Result<TrView, Fail> {
    notes.known();
    let start = start_of(alloc, typed)?;
    let changes = changes(alloc, typed, start.document.len())?;
    let end = end_of(alloc, &changes, &start.document, given.unwrap_or(0))?;
    Ok(TrView::new(alloc, changes, start, end, given.is_some(), notes)?)
}

/// What is shown of a transaction with effects of these values and a note, which gives a cursor.
pub(crate) fn given(
    alloc: Global,
    typed: Typed<'_>,
    head: u32,
    values: Of<'_>,
    note: Note<'_>,
) -> Result<TrView, Fail> {
    viewed(alloc, typed, Some(head), notes(alloc, values, note)?)
}

/// What is shown of a transaction with effects of these values and a note.
pub(crate) fn shown(
    alloc: Global,
    typed: Typed<'_>,
    values: Of<'_>,
    note: Note<'_>,
) -> Result<TrView, Fail> {
    viewed(alloc, typed, None, notes(alloc, values, note)?)
}
