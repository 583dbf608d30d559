// What rules are shown of a draft.
ghost use Rattle.std.specs.Prelude.{◌≡◌, IfOk, filter_map, unwrap_or, ℕ};
ghost use Rattle.change_desc.specs.Sections.{apply, lengths, new_size, old_size, spelled};
ghost use Rattle.selection.specs.Selections.{LieIn, moved_selection};
ghost use Rattle.transaction.specs.Merging.{SelectionIn};
ghost use Rattle.filters.specs.Shown.{allowed, new_selection, shown_effect, shown_of};
ghost use Rattle.filters.specs.Starts.{IsStart, StartsIn, start_of};

use crate::start::Start;
use cm_plain::KeptEffect;
use line_tree::Text;
use listed::Listed;
use selection::Selection;
use std::alloc::{AllocError, Global};
use transaction::{Annotation, Draft, Effect};
use values::{Scene, ShownEffect, TrNotes, TrView, Val};

/// The effects that have a kind, in order, once more.
fn shown_effects(alloc: Global, effects: &[Effect<Val>]) -> Result<Listed<ShownEffect>, AllocError>
    ensures { IfOk result (λ shown. shown ≡ filter_map shown_effect effects.now) }
{
    let mut shown = Listed::empty(alloc);
    for effect in effects {
        if let Effect::Kind { id, value } = effect {
            shown.push(ShownEffect {
                id: *id,
                value: value.try_copy(alloc)?,
            })?;
        }
    }
    Ok(shown)
}

fn annotation_copy(alloc: Global, annotation: &Annotation) -> Result<Annotation, AllocError>
    ensures { IfOk result (λ copy. copy ≡ annotation.now) }
{
    Ok(Annotation {
        kind: annotation.kind.try_copy()?,
        value: annotation.value.try_copy(alloc)?,
    })
}

fn annotations_copy(
    alloc: Global,
    annotations: &[Annotation],
) -> Result<Listed<Annotation>, AllocError>
    ensures { IfOk result (λ copy. copy ≡ annotations.now) }
{
    let mut copy = Listed::empty(alloc);
    for annotation in annotations {
        copy.push(annotation_copy(alloc, annotation)?)?;
    }
    Ok(copy)
}

/// What a draft carries beside its changes and selection, as rules are shown it.
fn notes(
    alloc: Global,
    draft: &Draft<Val>,
    inverted: Listed<KeptEffect>,
) -> Result<TrNotes, AllocError>
    ensures effects { IfOk result (λ notes. notes.effects ≡ filter_map shown_effect draft.now.effects) }
    ensures inverted { IfOk result (λ notes. notes.inverted ≡ inverted) }
    ensures annotations { IfOk result (λ notes. notes.annotations ≡ draft.now.annotations) }
{
    let effects = shown_effects(alloc, draft.effects.as_slice())?;
    let annotations = annotations_copy(alloc, draft.annotations.as_slice())?;
    Ok(TrNotes {
        effects,
        inverted,
        annotations,
    })
}

/// An effect as rules are shown it, if it has a kind.
fn taken_effect(effect: Effect<Val>) -> Option<ShownEffect>
    ensures { result ≡ shown_effect effect }
{
    match effect {
        Effect::Kind { id, value } => Some(ShownEffect { id, value }),
        _ => None,
    }
}

/// The effects that have a kind, in order.
fn taken_effects(
    alloc: Global,
    effects: Listed<Effect<Val>>,
) -> Result<Listed<ShownEffect>, AllocError>
    ensures { IfOk result (λ shown. shown ≡ filter_map shown_effect effects) }
{
    let mut shown = Listed::empty(alloc);
    for effect in effects.into_vec() {
        if let Some(next) = taken_effect(effect) {
            shown.push(next)?;
        }
    }
    Ok(shown)
}

/// What a draft carries beside its changes and selection, as rules are shown it, made of what it has.
fn taken_notes(
    alloc: Global,
    effects: Listed<Effect<Val>>,
    inverted: Listed<KeptEffect>,
    annotations: Listed<Annotation>,
) -> Result<TrNotes, AllocError>
    ensures effects { IfOk result (λ notes. notes.effects ≡ filter_map shown_effect effects) }
    ensures inverted { IfOk result (λ notes. notes.inverted ≡ inverted) }
    ensures annotations { IfOk result (λ notes. notes.annotations ≡ annotations) }
{
    let effects = taken_effects(alloc, effects)?;
    Ok(TrNotes {
        effects,
        inverted,
        annotations,
    })
}

/// The given selection, or else a start selection after the changes.
fn whole_selection(selection: &Selection, draft: &Draft<Val>) -> Result<Selection, AllocError>
    requires inside { LieIn (old_size draft.now.changes) selection.now.ranges }
    requires given { SelectionIn (new_size spelled draft.now.changes) draft.now.selection }
    ensures value { IfOk result (λ s. s ≡ unwrap_or draft.now.selection (moved_selection (lengths spelled draft.now.changes) selection.now)) }
    ensures inside { IfOk result (λ s. LieIn (new_size spelled draft.now.changes) s.ranges) }
{
    match &draft.selection {
        Some(given) => given.try_copy(),
        None => {
            let over = draft.changes.desc()?;
            selection.map(&over)
        }
    }
}

/// A selection, or its main range alone where several ranges aren't allowed.
fn allowed(allows_multiple: bool, whole: Selection) -> Result<Selection, AllocError>
    ensures value { IfOk result (λ s. s ≡ allowed allows_multiple whole) }
    ensures inside { IfOk result (λ s. (len : ℕ) → LieIn len whole.ranges → LieIn len s.ranges) }
{
    if allows_multiple {
        Ok(whole)
    } else {
        whole.as_single()
    }
}

/// The new selection.
fn new_selection(start: &Start<'_>, draft: &Draft<Val>) -> Result<Selection, AllocError>
    requires start { IsStart (start_of start.now) }
    requires draft { StartsIn (start_of start.now) draft.now }
    ensures value { IfOk result (λ s. s ≡ new_selection (start_of start.now) draft.now) }
    ensures inside { IfOk result (λ s. LieIn (new_size spelled draft.now.changes) s.ranges) }
{
    let whole = whole_selection(start.selection, draft)?;
    allowed(start.allows_multiple, whole)
}

/// The new document with the new selection.
fn new_scene(start: &Start<'_>, draft: &Draft<Val>) -> Result<Scene, AllocError>
    requires start { IsStart (start_of start.now) }
    requires draft { StartsIn (start_of start.now) draft.now }
    ensures document { IfOk result (λ scene. scene.document.characters ≡ apply draft.now.changes start.now.document.now.characters) }
    ensures selection { IfOk result (λ scene. scene.selection ≡ new_selection (start_of start.now) draft.now) }
    ensures inside { IfOk result (λ scene. LieIn (new_size spelled draft.now.changes) scene.selection.ranges) }
{
    let document = draft.changes.apply(start.document)?;
    let selection = new_selection(start, draft)?;
    Ok(Scene {
        document,
        selection,
    })
}

/// A document with its selection once more. The text is shared.
#[inline(always)]
fn scene_copy(document: &Text, selection: &Selection) -> Result<Scene, AllocError>
    ensures document { IfOk result (λ scene. scene.document.characters ≡ document.now.characters) }
    ensures selection { IfOk result (λ scene. scene.selection ≡ selection.now) }
{
    Ok(Scene {
        document: document.try_copy()?,
        selection: selection.try_copy()?,
    })
}

/// What rules are shown of a draft, with what undoes its effects (Reference Manual, Transaction): its effects that have a kind,
/// and as new selection the given one, or else the start one mapped, cut to its main range where several ranges aren't allowed.
/// Texts are shared. `Err`: out of memory.
pub(crate) fn shown(
    alloc: Global,
    start: &Start<'_>,
    inverted: Listed<KeptEffect>,
    draft: &Draft<Val>,
) -> Result<TrView, AllocError>
    requires start { IsStart (start_of start.now) }
    requires draft { StartsIn (start_of start.now) draft.now }
    ensures { IfOk result (λ t. t ≡ shown_of (start_of start.now) inverted draft.now) }
{
    let notes = notes(alloc, draft, inverted)?;
    let changes = draft.changes.try_copy()?;
    let before = scene_copy(start.document, start.selection)?;
    let after = new_scene(start, draft)?;
    notes.known();
    before.selection.known();
    after.selection.known();
    TrView::new(
        alloc,
        changes,
        before,
        after,
        draft.selection.is_some(),
        notes,
    )
}

/// What rules are shown of a draft that is handed over (Reference Manual, Transaction), as `shown` gives it. Its changes, effects and
/// annotations are taken over, not copied. Texts are shared. `Err`: out of memory.
pub fn shown_from(
    alloc: Global,
    start: &Start<'_>,
    inverted: Listed<KeptEffect>,
    draft: Box<Draft<Val>>,
) -> Result<TrView, AllocError>
    requires start { IsStart (start_of start.now) }
    requires draft { StartsIn (start_of start.now) draft.value }
    ensures { IfOk result (λ t. t ≡ shown_of (start_of start.now) inverted draft.value) }
{
    let before = scene_copy(start.document, start.selection)?;
    let after = new_scene(start, &draft)?;
    let draft = Box::into_inner(draft);
    let is_given = draft.selection.is_some();
    let notes = taken_notes(alloc, draft.effects, inverted, draft.annotations)?;
    notes.known();
    before.selection.known();
    after.selection.known();
    TrView::new(alloc, draft.changes, before, after, is_given, notes)
}
