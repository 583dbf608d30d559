// The commands that go over the history.
ghost use Rattle.std.specs.Prelude.{◌≡◌, ◌++◌, ◌∷◌, [], ◌||◌, IfOk, MatchOption, false, is_none, map, option_map, pos};
ghost use Rattle.std.specs.Option.{option_and_then, option_to_list};
ghost use Rattle.change_set.specs.declared.change.Change.TheVariants as changes;
ghost use Rattle.history.specs.Histories.{empty};
ghost use Rattle.history.specs.Items.{newest_change};
ghost use Rattle.history.specs.Reading.{restored_change, restored_item};
ghost use Rattle.commands.specs.Editing.{shown_scene, time_notes};
ghost use Rattle.commands.specs.Undoing.{from_history, has_no_item, history_of, redo_selection_spec, redo_spec, restoring, restoring_item, sent, undo_selection_spec, undo_spec};

use crate::edit_scene::EditScene;
use crate::editing::{number_note, time_notes};
use change_set::{Change, ChangeSet};
use cm_plain::{KeptEffect, Str};
use history::{History, Restore};
use listed::Listed;
use selection::Selection;
use std::alloc::{AllocError, Global};
use transaction::{Annotation, Effect, SelectionSpec, Spec};
use values::Val;

/// The name of the annotation that says which list of a history a transaction comes from.
const FROM_HISTORY: [char; 11] = ['f', 'r', 'o', 'm', 'H', 'i', 's', 't', 'o', 'r', 'y'];

/// The user events of what is undone and done again (Reference Manual, undo, redo).
const UNDO: [char; 4] = ['u', 'n', 'd', 'o'];

const REDO: [char; 4] = ['r', 'e', 'd', 'o'];

const SELECT_UNDO: [char; 11] = ['s', 'e', 'l', 'e', 'c', 't', '.', 'u', 'n', 'd', 'o'];

const SELECT_REDO: [char; 11] = ['s', 'e', 'l', 'e', 'c', 't', '.', 'r', 'e', 'd', 'o'];

/// Undoes the newest Change; `None` exactly where the document is read only or no Change is left. A history that doesn't lead from
/// the document counts as empty. (Reference Manual, undo.) `Err`: out of memory.
pub fn undo(alloc: Global, scene: &EditScene<'_>) -> Result<Option<Spec<Val>>, AllocError>
    ensures value { IfOk result (λ spec. spec ≡ undo_spec (shown_scene scene.now)) }
    ensures none { IfOk result (λ spec. is_none spec ≡ (scene.now.read_only || is_none (newest_change (history_of (shown_scene scene.now)).done))) }
{
    if scene.read_only {
        return Ok(None);
    }
    let restore = undone(scene)?;
    restoring_if(alloc, scene, restore, &UNDO)
}

/// Does the newest Change that was undone again; `None` exactly where the document is read only or no such Change is left. A
/// history that doesn't lead from the document counts as empty. (Reference Manual, redo.) `Err`: out of memory.
pub fn redo(alloc: Global, scene: &EditScene<'_>) -> Result<Option<Spec<Val>>, AllocError>
    ensures value { IfOk result (λ spec. spec ≡ redo_spec (shown_scene scene.now)) }
    ensures none { IfOk result (λ spec. is_none spec ≡ (scene.now.read_only || is_none (newest_change (history_of (shown_scene scene.now)).undone))) }
{
    if scene.read_only {
        return Ok(None);
    }
    let restore = redone(scene)?;
    restoring_if(alloc, scene, restore, &REDO)
}

/// Undoes the newest item, a Change or a selection that was left; `None` exactly where no item is left, or where it is a Change and
/// the document is read only. (Reference Manual, undoSelection.) `Err`: out of memory.
pub fn undo_selection(alloc: Global, scene: &EditScene<'_>) -> Result<Option<Spec<Val>>, AllocError>
    ensures value { IfOk result (λ spec. spec ≡ undo_selection_spec (shown_scene scene.now)) }
    ensures none { IfOk result (λ spec. is_none spec ≡ has_no_item scene.now.read_only (history_of (shown_scene scene.now)).done) }
{
    let restore = undone_item(scene)?;
    restoring_item_if(alloc, scene, restore, &UNDO, &SELECT_UNDO)
}

/// Does the newest item that was undone again, a Change or a selection; `None` exactly where no such item is left, or where it is a
/// Change and the document is read only. (Reference Manual, redoSelection.) `Err`: out of memory.
pub fn redo_selection(alloc: Global, scene: &EditScene<'_>) -> Result<Option<Spec<Val>>, AllocError>
    ensures value { IfOk result (λ spec. spec ≡ redo_selection_spec (shown_scene scene.now)) }
    ensures none { IfOk result (λ spec. is_none spec ≡ has_no_item scene.now.read_only (history_of (shown_scene scene.now)).undone) }
{
    let restore = redone_item(scene)?;
    restoring_item_if(alloc, scene, restore, &REDO, &SELECT_REDO)
}

/// The scene's history, where it leads from the document.
fn history_of<'a>(scene: &EditScene<'a>) -> Option<&'a History>
    ensures { MatchOption result (history_of (shown_scene scene.now) ≡ empty) (λ h. history_of (shown_scene scene.now) ≡ h.now) }
{
    match scene.history {
        None => None,
        Some(history) => {
            if history.leads_from(scene.doc.len()) {
                Some(history)
            } else {
                None
            }
        }
    }
}

/// The newest Change that can be undone.
fn undone(scene: &EditScene<'_>) -> Result<Option<Restore>, AllocError>
    ensures { IfOk result (λ restore. restore ≡ restored_change (pos 0) (history_of (shown_scene scene.now)).done) }
{
    match history_of(scene) {
        None => Ok(None),
        Some(history) => history.undo_spec(),
    }
}

/// The newest Change that was undone.
fn redone(scene: &EditScene<'_>) -> Result<Option<Restore>, AllocError>
    ensures { IfOk result (λ restore. restore ≡ restored_change (pos 1) (history_of (shown_scene scene.now)).undone) }
{
    match history_of(scene) {
        None => Ok(None),
        Some(history) => history.redo_spec(),
    }
}

/// The newest item that can be undone.
fn undone_item(scene: &EditScene<'_>) -> Result<Option<Restore>, AllocError>
    ensures { IfOk result (λ restore. restore ≡ restored_item (pos 0) (pos 2) (history_of (shown_scene scene.now)).done) }
{
    match history_of(scene) {
        None => Ok(None),
        Some(history) => history.undo_selection_spec(),
    }
}

/// The newest item that was undone.
fn redone_item(scene: &EditScene<'_>) -> Result<Option<Restore>, AllocError>
    ensures { IfOk result (λ restore. restore ≡ restored_item (pos 1) (pos 3) (history_of (shown_scene scene.now)).undone) }
{
    match history_of(scene) {
        None => Ok(None),
        Some(history) => history.redo_selection_spec(),
    }
}

/// What restores an item, if there is one, under a user event.
fn restoring_if(
    alloc: Global,
    scene: &EditScene<'_>,
    restore: Option<Restore>,
    event: &[char],
) -> Result<Option<Spec<Val>>, AllocError>
    ensures { IfOk result (λ spec. spec ≡ option_map (restoring (shown_scene scene.now) event.now) restore) }
{
    match restore {
        None => Ok(None),
        Some(restore) => {
            let spec = restoring(alloc, scene, restore, event)?;
            Ok(Some(spec))
        }
    }
}

/// What restores an item, if there is one, under the user event of its sort; none for a Change of a document that is read only.
fn restoring_item_if(
    alloc: Global,
    scene: &EditScene<'_>,
    restore: Option<Restore>,
    change: &[char],
    select: &[char],
) -> Result<Option<Spec<Val>>, AllocError>
    ensures { IfOk result (λ spec. spec ≡ option_and_then (restoring_item (shown_scene scene.now) change.now select.now) restore) }
{
    match restore {
        None => Ok(None),
        Some(restore) => restoring_item(alloc, scene, restore, change, select),
    }
}

fn restoring_item(
    alloc: Global,
    scene: &EditScene<'_>,
    restore: Restore,
    change: &[char],
    select: &[char],
) -> Result<Option<Spec<Val>>, AllocError>
    ensures { IfOk result (λ spec. spec ≡ restoring_item (shown_scene scene.now) change.now select.now restore) }
{
    if restore.changes.is_none() {
        let spec = restoring(alloc, scene, restore, select)?;
        return Ok(Some(spec));
    }
    if scene.read_only {
        return Ok(None);
    }
    let spec = restoring(alloc, scene, restore, change)?;
    Ok(Some(spec))
}

/// What restores an item.
fn restoring(
    alloc: Global,
    scene: &EditScene<'_>,
    restore: Restore,
    event: &[char],
) -> Result<Spec<Val>, AllocError>
    ensures { IfOk result (λ spec. spec ≡ restoring (shown_scene scene.now) event.now restore) }
{
    let annotations = history_notes(alloc, scene.time, restore.number)?;
    let user_event = Str::of(alloc, event)?;
    let selection = given(alloc, &restore.selection)?;
    sending(alloc, restore, selection, annotations, user_event)
}

/// A given time, and the number that says which list an item comes from, as annotations.
fn history_notes(
    alloc: Global,
    time: Option<i64>,
    number: i64,
) -> Result<Listed<Annotation>, AllocError>
    ensures { IfOk result (λ notes. notes ≡ time_notes time ++ from_history number ∷ []) }
{
    let mut notes = time_notes(alloc, time)?;
    notes.push(number_note(alloc, &FROM_HISTORY, number)?)?;
    Ok(notes)
}

/// A selection, to be given.
fn given(alloc: Global, selection: &Selection) -> Result<SelectionSpec, AllocError>
    ensures { IfOk result (λ given. given ≡ record { ranges = selection.now.ranges; main = selection.now.main }) }
{
    let ranges = Vec::from_slice(alloc, selection.ranges())?;
    Ok(SelectionSpec {
        ranges: Listed::new(ranges),
        main: selection.main_index(),
    })
}

/// The changes and effects of an item with what else is sent.
fn sending(
    alloc: Global,
    restore: Restore,
    selection: SelectionSpec,
    annotations: Listed<Annotation>,
    user_event: Str,
) -> Result<Spec<Val>, AllocError>
    ensures { IfOk result (λ spec. spec ≡ record { changes = map changes.Set (option_to_list restore.changes); selection = Some selection; effects = map sent restore.effects; annotations = annotations; user_event = Some user_event; sequential = false; filter = false }) }
{
    let changes = as_changes(alloc, restore.changes)?;
    let effects = all_sent(alloc, restore.effects)?;
    Ok(Spec {
        changes,
        selection: Some(selection),
        effects,
        annotations,
        user_event: Some(user_event),
        sequential: false,
        filter: false,
    })
}

/// A set of changes, if there is one, as a list.
fn as_changes(alloc: Global, set: Option<ChangeSet>) -> Result<Listed<Change>, AllocError>
    ensures { IfOk result (λ list. list ≡ map changes.Set (option_to_list set)) }
{
    let mut list = Listed::empty(alloc);
    if let Some(set) = set {
        list.push(Change::Set(set))?;
    }
    Ok(list)
}

/// Kept effects as ones that are sent.
fn all_sent(alloc: Global, effects: Listed<KeptEffect>) -> Result<Listed<Effect<Val>>, AllocError>
    ensures { IfOk result (λ all. all ≡ map sent effects) }
{
    let mut all = Vec::new(alloc);
    for effect in effects.into_vec() {
        all.push(Effect::Kind {
            id: effect.id,
            value: Val::Plain(effect.value),
        })?;
    }
    Ok(Listed::new(all))
}
