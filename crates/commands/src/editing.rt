// The spec of what a command does.
ghost use Rattle.std.specs.Prelude.{◌≡◌, IfOk};
ghost use Rattle.commands.specs.Editing.{editing, shown_scene, time_note, time_notes};

use crate::edit_scene::EditScene;
use change_set::Change;
use cm_plain::{Plain, Str};
use listed::Listed;
use std::alloc::{AllocError, Global};
use transaction::{Annotation, SelectionSpec, Spec};
use values::Val;

/// The name of the annotation that holds a time (Reference Manual, Transaction.time).
const TIME: [char; 4] = ['t', 'i', 'm', 'e'];

/// Changes of a scene's document and a selection, if one is given, under a user event.
pub(crate) fn editing(
    alloc: Global,
    scene: &EditScene<'_>,
    changes: Listed<Change>,
    selection: Option<SelectionSpec>,
    event: &[char],
) -> Result<Spec<Val>, AllocError>
    ensures { IfOk result (λ spec. spec ≡ editing (shown_scene scene.now) changes selection event.now) }
{
    let annotations = time_notes(alloc, scene.time)?;
    let user_event = Str::of(alloc, event)?;
    Ok(Spec {
        changes,
        selection,
        effects: Listed::empty(alloc),
        annotations,
        user_event: Some(user_event),
        sequential: false,
        filter: true,
    })
}

/// A given time as an annotation.
pub(crate) fn time_notes(alloc: Global, time: Option<i64>) -> Result<Listed<Annotation>, AllocError>
    ensures { IfOk result (λ notes. notes ≡ time_notes time) }
{
    let mut notes = Listed::empty(alloc);
    if let Some(time) = time {
        notes.push(number_note(alloc, &TIME, time)?)?;
    }
    Ok(notes)
}

/// A number as an annotation of a kind.
pub(crate) fn number_note(
    alloc: Global,
    kind: &[char],
    number: i64,
) -> Result<Annotation, AllocError>
    ensures { IfOk result (λ note. note ≡ record { kind = kind.now; value = Plain.Int number }) }
{
    let kind = Str::of(alloc, kind)?;
    Ok(Annotation {
        kind,
        value: Plain::Int(number),
    })
}
