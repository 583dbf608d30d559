// What rules are shown: the empty text, to which an `a` is added.
ghost use Rattle.std.specs.Prelude.{◌≡◌, ◌≤◌, length, IfOk};
ghost use Rattle.line_tree.specs.Text.{max_len};
ghost use Rattle.change_desc.specs.Sections.{apply, old_size};
ghost use Rattle.selection.specs.Selections.{IsSelection, LieIn};

use change_set::{Change, ChangeSet, InsertedText};
use line_tree::{MAX_LEN, Text};
use listed::Listed;
use selection::{Selection, first_outside};
use std::alloc::Global;
use std::test::Fail;
use values::{Deps, Scene, TrNotes, TrView, UpdateView};

/// A document with a cursor at its start.
fn scene(alloc: Global, document: Text) -> Result<Scene, Fail>
    ensures document { IfOk result (λ scene. scene.document ≡ document) }
    ensures is_selection { IfOk result (λ scene. IsSelection scene.selection) }
    ensures inside { IfOk result (λ scene. LieIn (length document.characters) scene.selection.ranges) }
{
    let selection = Selection::single(alloc, 0, 0)?;
    if first_outside(selection.ranges(), document.len()).is_some() {
        return Err("a place in the text".into());
    }
    selection.known();
    Ok(Scene {
        document,
        selection,
    })
}

/// The empty text, with a cursor.
fn start(alloc: Global) -> Result<Scene, Fail>
    ensures short { IfOk result (λ scene. length scene.document.characters ≤ max_len) }
    ensures is_selection { IfOk result (λ scene. IsSelection scene.selection) }
    ensures inside { IfOk result (λ scene. LieIn (length scene.document.characters) scene.selection.ranges) }
{
    let document = Text::empty(alloc)?;
    if document.len() > MAX_LEN {
        return Err("a short text".into());
    }
    scene(alloc, document)
}

/// The end of changes, with a cursor.
fn end_of(alloc: Global, changes: &ChangeSet, start: &Text) -> Result<Scene, Fail>
    requires { old_size changes.now ≡ length start.now.characters }
    ensures document { IfOk result (λ scene. scene.document.characters ≡ apply changes.now start.now.characters) }
    ensures short { IfOk result (λ scene. length scene.document.characters ≤ max_len) }
    ensures is_selection { IfOk result (λ scene. IsSelection scene.selection) }
    ensures inside { IfOk result (λ scene. LieIn (length scene.document.characters) scene.selection.ranges) }
{
    let document = changes.apply(start)?;
    if document.len() > MAX_LEN {
        return Err("a short text".into());
    }
    scene(alloc, document)
}

/// An `a` before a text of `len` characters.
fn changes(alloc: Global, len: u32) -> Result<ChangeSet, Fail>
    ensures { IfOk result (λ changes. old_size changes ≡ len) }
{
    let insert = InsertedText::of(Text::of(alloc, &['a'])?);
    let change = [Change::Span {
        from: 0,
        to: 0,
        insert,
    }];
    Ok(ChangeSet::of(alloc, &change, len, MAX_LEN)?)
}

/// No effects and no annotations.
fn notes(alloc: Global) -> TrNotes {
    TrNotes {
        effects: Listed::empty(alloc),
        inverted: Listed::empty(alloc),
        annotations: Listed::empty(alloc),
    }
}

/// What is shown of a transaction that adds an `a` to the empty text.
fn typed(alloc: Global) -> Result<TrView, Fail> {
    let notes = notes(alloc);
    notes.known();
    let start = start(alloc)?;
    let changes = changes(alloc, start.document.len())?;
    let end = end_of(alloc, &changes, &start.document)?;
    Ok(TrView::new(alloc, changes, start, end, false, notes)?)
}

/// What an updater is shown of that transaction, with no reads.
pub(crate) fn view(alloc: Global) -> Result<UpdateView, Fail> {
    let transaction = typed(alloc)?;
    Ok(UpdateView {
        transaction,
        deps: Deps::none(),
    })
}
