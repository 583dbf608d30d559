// Transactions of slots over "ab".
ghost use Rattle.std.specs.Prelude.{◌≡◌, ◌≤◌, length, false, IfOk};
ghost use Rattle.line_tree.specs.Text.{max_len};
ghost use Rattle.change_desc.specs.Sections.{apply, lengths, old_size, spelled};
ghost use Rattle.selection.specs.Selections.{IsSelection, LieIn, moved_selection};
ghost use Rattle.facet_slots.specs.Found.{scene_of};
ghost use Rattle.facet_slots.specs.Making.{IsMade};
ghost use Rattle.facet_slots.specs.Scenes.{IsScene};

use change_set::{Change, ChangeSet, InsertedText};
use facet_slots::Slots;
use line_tree::{MAX_LEN, Text, cut_len};
use listed::Listed;
use selection::{Selection, first_outside};
use shipped_rules::Shipped;
use std::alloc::{AllocError, Global};
use values::{Scene, TrNotes, TrView};

/// A transaction.
#[derive(Clone, Copy)]
pub(crate) enum Sent<'a> {
    /// Characters in place of those from a place up to a place.
    Typed(u32, u32, &'a [char]),
    /// A cursor.
    Selected(u32),
    /// Nothing.
    Nothing,
}

/// A document with a selection of it; `Err` where the one is too long or the other isn't in it, too.
fn scene(document: Text, selection: Selection) -> Result<Scene, AllocError>
    ensures document { IfOk result (λ scene. scene.document ≡ document) }
    ensures selection { IfOk result (λ scene. scene.selection ≡ selection) }
    ensures short { IfOk result (λ scene. length document.characters ≤ max_len) }
    ensures is_selection { IfOk result (λ scene. IsSelection selection) }
    ensures inside { IfOk result (λ scene. LieIn (length document.characters) selection.ranges) }
{
    selection.known();
    if document.len() > MAX_LEN || first_outside(selection.ranges(), document.len()).is_some() {
        return Err(AllocError);
    }
    Ok(Scene {
        document,
        selection,
    })
}

/// "ab" with a cursor before it.
pub(crate) fn start(alloc: Global) -> Result<Scene, AllocError>
    ensures { IfOk result (λ scene. IsScene (scene_of scene)) }
{
    let document = Text::of(alloc, &['a', 'b'])?;
    let selection = Selection::single(alloc, 0, 0)?;
    scene(document, selection)
}

/// A text; `Err` where it is too long, too.
fn text(alloc: Global, characters: &[char]) -> Result<Text, AllocError> {
    if cut_len(characters) > MAX_LEN as usize {
        return Err(AllocError);
    }
    Text::of(alloc, characters)
}

/// Changes of a document of `len` characters; `Err` where they are refused, too.
fn changes(alloc: Global, changes: &[Change], len: u32) -> Result<ChangeSet, AllocError>
    ensures { IfOk result (λ set. old_size set ≡ len) }
{
    match ChangeSet::of(alloc, changes, len, MAX_LEN) {
        Ok(set) => Ok(set),
        Err(_) => Err(AllocError),
    }
}

/// The selection over changes.
fn moved(selection: &Selection, changes: &ChangeSet) -> Result<Selection, AllocError>
    ensures { IfOk result (λ moved. moved ≡ moved_selection (lengths spelled changes.now) selection.now) }
{
    let desc = changes.desc()?;
    if first_outside(selection.ranges(), desc.len()).is_some() {
        return Err(AllocError);
    }
    selection.map(&desc)
}

/// The start of a transaction.
fn start_of(slots: &Slots<Shipped>) -> Result<Scene, AllocError>
    ensures { IfOk result (λ scene. scene_of scene ≡ slots.now.scene) }
{
    let document = slots.document().try_copy()?;
    let selection = slots.selection().try_copy()?;
    Ok(Scene {
        document,
        selection,
    })
}

/// The end of a transaction of these changes, with this selection.
fn end_of(
    slots: &Slots<Shipped>,
    changes: &ChangeSet,
    selection: Selection,
) -> Result<Scene, AllocError>
    requires { old_size changes.now ≡ length slots.now.scene.document }
    ensures document { IfOk result (λ scene. scene.document.characters ≡ apply changes.now slots.now.scene.document) }
    ensures selection { IfOk result (λ scene. scene.selection ≡ selection) }
    ensures short { IfOk result (λ scene. length scene.document.characters ≤ max_len) }
    ensures is_selection { IfOk result (λ scene. IsSelection scene.selection) }
    ensures inside { IfOk result (λ scene. LieIn (length scene.document.characters) scene.selection.ranges) }
{
    let document = changes.apply(slots.document())?;
    scene(document, selection)
}

/// No effect and no annotation.
fn no_notes(alloc: Global) -> TrNotes {
    TrNotes {
        effects: Listed::empty(alloc),
        inverted: Listed::empty(alloc),
        annotations: Listed::empty(alloc),
    }
}

/// What is shown of a transaction that leads to this end.
fn viewed(
    alloc: Global,
    slots: &Slots<Shipped>,
    changes: ChangeSet,
    end: Scene,
    is_given: bool,
    notes: TrNotes,
) -> Result<TrView, AllocError>
    requires starts { old_size changes ≡ length slots.now.scene.document }
    requires document { end.document.characters ≡ apply changes slots.now.scene.document }
    requires short { length end.document.characters ≤ max_len }
    requires is_selection { IsSelection end.selection }
    requires inside { LieIn (length end.document.characters) end.selection.ranges }
    requires moved { is_given ≡ false → end.selection ≡ moved_selection (lengths spelled changes) slots.now.scene.selection }
    ensures { IfOk result (λ t. IsMade slots.now.scene t) }
{
    slots.known();
    notes.known();
    let start = start_of(slots)?;
    TrView::new(alloc, changes, start, end, is_given, notes)
}

/// A transaction that gives no selection.
fn mapped(alloc: Global, slots: &Slots<Shipped>, changes: ChangeSet) -> Result<TrView, AllocError>
    requires { old_size changes ≡ length slots.now.scene.document }
    ensures { IfOk result (λ t. IsMade slots.now.scene t) }
{
    let selection = moved(slots.selection(), &changes)?;
    let end = end_of(slots, &changes, selection)?;
    viewed(alloc, slots, changes, end, false, no_notes(alloc))
}

fn typed(
    alloc: Global,
    slots: &Slots<Shipped>,
    from: u32,
    to: u32,
    characters: &[char],
) -> Result<TrView, AllocError>
    ensures { IfOk result (λ t. IsMade slots.now.scene t) }
{
    let insert = InsertedText::of(text(alloc, characters)?);
    let set = changes(
        alloc,
        &[Change::Span { from, to, insert }],
        slots.document().len(),
    )?;
    mapped(alloc, slots, set)
}

fn nothing(alloc: Global, slots: &Slots<Shipped>) -> Result<TrView, AllocError>
    ensures { IfOk result (λ t. IsMade slots.now.scene t) }
{
    let set = changes(alloc, &[], slots.document().len())?;
    mapped(alloc, slots, set)
}

fn cursor(alloc: Global, slots: &Slots<Shipped>, head: u32) -> Result<TrView, AllocError>
    ensures { IfOk result (λ t. IsMade slots.now.scene t) }
{
    let set = changes(alloc, &[], slots.document().len())?;
    let selection = Selection::single(alloc, head, head)?;
    let end = end_of(slots, &set, selection)?;
    viewed(alloc, slots, set, end, true, no_notes(alloc))
}

/// What is shown of a transaction; `Err` where it is refused, too.
pub(crate) fn transaction(
    alloc: Global,
    slots: &Slots<Shipped>,
    sent: Sent<'_>,
) -> Result<TrView, AllocError>
    ensures { IfOk result (λ t. IsMade slots.now.scene t) }
{
    match sent {
        Sent::Typed(from, to, characters) => typed(alloc, slots, from, to, characters),
        Sent::Selected(head) => cursor(alloc, slots, head),
        Sent::Nothing => nothing(alloc, slots),
    }
}
