ghost use Rattle.std.specs.Prelude.{IfErr, IfOk, None, Some, [], ◌∷◌, ◌≡◌, ◌≢◌, ◌≤◌, option_map};
ghost use Rattle.std.specs.Box.{box_value};
ghost use Rattle.change_desc.specs.Sections.{new_size, old_size, spelled};
ghost use Rattle.transaction.specs.Frames.{IsFrame};
ghost use Rattle.transaction.specs.Merging.{IsDraft, SelectionIn, merged, next_total, start_len, with_spec};
ghost use Rattle.transaction.specs.Refusals.{spec_changes_refusal, specs_refusal, too_long, unknown_effect, unknown_in};
ghost use Rattle.transaction.specs.PrivateSteps.{Advances, Follows, IsBefore, IsShort, changes_before};

use crate::draft::Draft;
use crate::effect_maps::EffectMaps;
use crate::error::TransactionError;
use crate::frame::Frame;
use crate::spec::{Spec, unknown_effect};
use std::alloc::Global;

/// How long the document is that a spec starts in.
fn start_len<V>(before: &Option<Box<Draft<V>>>, sequential: bool, len: u32) -> u32
    ensures { result ≡ start_len len (changes_before (option_map box_value before.now)) sequential }
{
    match before {
        Some(draft) if sequential => draft.changes.new_len(),
        _ => len,
    }
}

/// A draft joined with that of the next spec, which starts where the draft ends if it is sequential, and else where the draft
/// starts.
fn joined<V: Drop, M: EffectMaps<V>>(
    alloc: Global,
    draft: Box<Draft<V>>,
    next: Box<Draft<V>>,
    sequential: bool,
    frame: &Frame<M>,
) -> Result<Box<Draft<V>>, TransactionError>
    requires frame { IsFrame (M.can_map frame.now.maps.now) (M.map_count frame.now.maps.now) frame.now.kinds.now frame.now.max }
    requires before { IsShort frame.now.len frame.now.max draft.value }
    requires starts { old_size next.value.changes ≡ start_len frame.now.len (Some draft.value.changes) sequential }
    requires short { new_size spelled next.value.changes ≤ frame.now.max }
    requires inside { SelectionIn (new_size spelled next.value.changes) next.value.selection }
    ensures draft { IfOk result (λ joined. Follows frame.now.len frame.now.max frame.now.kinds.now (M.map_value frame.now.maps.now) (Some draft.value) sequential next.value joined.value) }
    ensures refused { IfErr result (λ error. error ≢ TransactionError.NoMemory → too_long frame.now.max (next_total (Some draft.value.changes) sequential next.value.changes) ≡ Some error) }
{
    let first = Box::into_inner(draft);
    let second = Box::into_inner(next);
    if sequential {
        Ok(first.followed(alloc, second, frame)?)
    } else {
        first.beside(alloc, second, frame)
    }
}

/// A spec's draft after what was done before.
fn after<V: Drop, M: EffectMaps<V>>(
    alloc: Global,
    before: Option<Box<Draft<V>>>,
    next: Box<Draft<V>>,
    sequential: bool,
    frame: &Frame<M>,
) -> Result<Box<Draft<V>>, TransactionError>
    requires frame { IsFrame (M.can_map frame.now.maps.now) (M.map_count frame.now.maps.now) frame.now.kinds.now frame.now.max }
    requires before { IsBefore frame.now.len frame.now.max (option_map box_value before) }
    requires starts { old_size next.value.changes ≡ start_len frame.now.len (changes_before (option_map box_value before)) sequential }
    requires short { new_size spelled next.value.changes ≤ frame.now.max }
    requires inside { SelectionIn (new_size spelled next.value.changes) next.value.selection }
    ensures draft { IfOk result (λ draft. Follows frame.now.len frame.now.max frame.now.kinds.now (M.map_value frame.now.maps.now) (option_map box_value before) sequential next.value draft.value) }
    ensures refused { IfErr result (λ error. error ≢ TransactionError.NoMemory → too_long frame.now.max (next_total (changes_before (option_map box_value before)) sequential next.value.changes) ≡ Some error) }
{
    match before {
        None => Ok(next),
        Some(draft) => joined(alloc, draft, next, sequential, frame),
    }
}

/// One more spec after what was done before. Where its selection is refused and none before it was, the refusal is kept.
fn advance<V: Drop, M: EffectMaps<V>>(
    alloc: Global,
    before: Option<Box<Draft<V>>>,
    spec: Spec<V>,
    refusal: &mut Option<TransactionError>,
    frame: &Frame<M>,
) -> Result<Box<Draft<V>>, TransactionError>
    requires frame { IsFrame (M.can_map frame.now.maps.now) (M.map_count frame.now.maps.now) frame.now.kinds.now frame.now.max }
    requires before { IsBefore frame.now.len frame.now.max (option_map box_value before) }
    ensures draft { IfOk result (λ draft. Advances frame.now.len frame.now.max frame.now.kinds.now (M.map_value frame.now.maps.now) (option_map box_value before) spec refusal.old refusal.new draft.value) }
    ensures refused { IfErr result (λ error. error ≢ TransactionError.NoMemory → spec_changes_refusal frame.now.len frame.now.max (changes_before (option_map box_value before)) spec ≡ Some error) }
{
    let start = start_len(&before, spec.sequential, frame.len);
    let made = match spec.made(alloc, start, frame.max) {
        Ok(made) => made,
        Err(error) => return Err(error),
    };
    *refusal = refusal.take().or(made.refusal);
    after(alloc, before, made.draft, made.sequential, frame)
}

/// Merges specs in order over the start document, where no document may have more characters than the frame says (Reference
/// Manual, EditorState.update, before filters). The first refusal in this order counts: an effect of an unknown kind or on an
/// unknown compartment; of the specs in order a change that is refused, and then merged changes that lead to a document that
/// is too long; of the specs in order a selection that is refused.
pub fn resolve<V: Drop, M: EffectMaps<V>>(
    alloc: Global,
    specs: Vec<Spec<V>>,
    frame: &Frame<M>,
) -> Result<Box<Draft<V>>, TransactionError>
    requires { IsFrame (M.can_map frame.now.maps.now) (M.map_count frame.now.maps.now) frame.now.kinds.now frame.now.max }
    ensures draft { IfOk result (λ draft. draft.value ≡ merged frame.now.kinds.now (M.map_value frame.now.maps.now) frame.now.len specs.items) }
    ensures is_draft { IfOk result (λ draft. IsDraft frame.now.len draft.value) }
    ensures short { IfOk result (λ draft. frame.now.len ≤ frame.now.max → new_size spelled draft.value.changes ≤ frame.now.max) }
    ensures accepted { IfOk result (λ _. specs_refusal frame.now.len frame.now.max frame.now.kinds.now None specs.items ≡ None) }
    ensures refused { IfErr result (λ error. error ≢ TransactionError.NoMemory → specs_refusal frame.now.len frame.now.max frame.now.kinds.now None specs.items ≡ Some error) }
{
    match unknown_effect(&specs, frame.kinds) {
        Some(error) => Err(error),
        None => resolve_known(alloc, specs, frame),
    }
}

/// The same, where all kinds and compartments that effects name are known.
fn resolve_known<V: Drop, M: EffectMaps<V>>(
    alloc: Global,
    specs: Vec<Spec<V>>,
    frame: &Frame<M>,
) -> Result<Box<Draft<V>>, TransactionError>
    requires frame { IsFrame (M.can_map frame.now.maps.now) (M.map_count frame.now.maps.now) frame.now.kinds.now frame.now.max }
    requires known { unknown_effect frame.now.kinds.now specs.items ≡ None }
    ensures draft { IfOk result (λ draft. draft.value ≡ merged frame.now.kinds.now (M.map_value frame.now.maps.now) frame.now.len specs.items) }
    ensures is_draft { IfOk result (λ draft. IsDraft frame.now.len draft.value) }
    ensures short { IfOk result (λ draft. frame.now.len ≤ frame.now.max → new_size spelled draft.value.changes ≤ frame.now.max) }
    ensures accepted { IfOk result (λ _. specs_refusal frame.now.len frame.now.max frame.now.kinds.now None specs.items ≡ None) }
    ensures refused { IfErr result (λ error. error ≢ TransactionError.NoMemory → specs_refusal frame.now.len frame.now.max frame.now.kinds.now None specs.items ≡ Some error) }
{
    let mut draft = None;
    let mut refusal = None;
    for spec in specs {
        match advance(alloc, draft, spec, &mut refusal, frame) {
            Ok(next) => draft = Some(next),
            Err(error) => return Err(error),
        }
    }
    if let Some(error) = refusal {
        return Err(error);
    }
    match draft {
        Some(draft) => Ok(draft),
        None => Ok(Draft::empty(alloc, frame.len)?),
    }
}

/// Merges one more spec, whose effects are known, with a draft over the start document.
fn merge_known<V: Drop, M: EffectMaps<V>>(
    alloc: Global,
    draft: Box<Draft<V>>,
    spec: Spec<V>,
    frame: &Frame<M>,
) -> Result<Box<Draft<V>>, TransactionError>
    requires frame { IsFrame (M.can_map frame.now.maps.now) (M.map_count frame.now.maps.now) frame.now.kinds.now frame.now.max }
    requires before { IsDraft frame.now.len draft.value }
    requires short { new_size spelled draft.value.changes ≤ frame.now.max }
    requires known { unknown_in frame.now.kinds.now spec.effects ≡ None }
    ensures draft { IfOk result (λ both. both.value ≡ with_spec frame.now.kinds.now (M.map_value frame.now.maps.now) frame.now.len (Some draft.value) spec) }
    ensures is_draft { IfOk result (λ both. IsDraft frame.now.len both.value) }
    ensures short { IfOk result (λ both. new_size spelled both.value.changes ≤ frame.now.max) }
    ensures accepted { IfOk result (λ _. specs_refusal frame.now.len frame.now.max frame.now.kinds.now (Some draft.value.changes) (spec ∷ []) ≡ None) }
    ensures refused { IfErr result (λ error. error ≢ TransactionError.NoMemory → specs_refusal frame.now.len frame.now.max frame.now.kinds.now (Some draft.value.changes) (spec ∷ []) ≡ Some error) }
{
    let mut refusal = None;
    let both = match advance(alloc, Some(draft), spec, &mut refusal, frame) {
        Ok(both) => both,
        Err(error) => return Err(error),
    };
    match refusal {
        None => Ok(both),
        Some(error) => Err(error),
    }
}

/// Merges one more spec with a draft over the start document. The refusals are those of `resolve`.
pub fn merge<V: Drop, M: EffectMaps<V>>(
    alloc: Global,
    draft: Box<Draft<V>>,
    spec: Spec<V>,
    frame: &Frame<M>,
) -> Result<Box<Draft<V>>, TransactionError>
    requires frame { IsFrame (M.can_map frame.now.maps.now) (M.map_count frame.now.maps.now) frame.now.kinds.now frame.now.max }
    requires before { IsDraft frame.now.len draft.value }
    requires short { new_size spelled draft.value.changes ≤ frame.now.max }
    ensures draft { IfOk result (λ both. both.value ≡ with_spec frame.now.kinds.now (M.map_value frame.now.maps.now) frame.now.len (Some draft.value) spec) }
    ensures is_draft { IfOk result (λ both. IsDraft frame.now.len both.value) }
    ensures short { IfOk result (λ both. new_size spelled both.value.changes ≤ frame.now.max) }
    ensures accepted { IfOk result (λ _. specs_refusal frame.now.len frame.now.max frame.now.kinds.now (Some draft.value.changes) (spec ∷ []) ≡ None) }
    ensures refused { IfErr result (λ error. error ≢ TransactionError.NoMemory → specs_refusal frame.now.len frame.now.max frame.now.kinds.now (Some draft.value.changes) (spec ∷ []) ≡ Some error) }
{
    match spec.unknown_effect(frame.kinds) {
        Some(error) => Err(error),
        None => merge_known(alloc, draft, spec, frame),
    }
}
