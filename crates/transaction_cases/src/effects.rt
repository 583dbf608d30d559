use crate::drafts::{Coded, alone, are_effects, changing, code, effect, kinds, merged, together};
use cm_plain::{KeptEffect, KeptMap, Plain};
use listed::Listed;
use std::alloc::{AllocError, Global};
use std::test::Fail;
use transaction::{Draft, Effect, Spec, TransactionError};

/// A spec of one insertion with effects.
fn telling(
    alloc: Global,
    at: u32,
    inserted: char,
    codes: &[Coded],
) -> Result<Spec<Plain>, AllocError> {
    let mut spec = changing(alloc, at, at, &[inserted])?;
    for code in codes {
        spec.effects.push(effect(alloc, *code)?)?;
    }
    Ok(spec)
}

/// Whether two specs merge to these effects: the first inserts at 1 and the second at 3.
fn merge_to(
    alloc: Global,
    first: &[Coded],
    second: &[Coded],
    want: &[Coded],
) -> Result<bool, TransactionError> {
    let first = telling(alloc, 1, 'x', first)?;
    let second = telling(alloc, 3, 'y', second)?;
    let draft = together(alloc, first, second)?;
    Ok(are_effects(draft.effects.as_slice(), want))
}

#[test]
fn effects_move_over_the_other_changes(rt: HostRuntime) -> Result<(), Fail> {
    let first = [(0, 4, -1), (1, 4, -1), (2, 4, 5)];
    let second = [(0, 1, -1), (1, 1, -1), (2, 0, 4)];
    let want = [
        (0, 4, -1),
        (1, 5, -1),
        (2, 5, 6),
        (0, 1, -1),
        (1, 2, -1),
        (2, 0, 5),
    ];
    assert!(rt; merge_to(rt.alloc(), &first, &second, &want)?);
    Ok(())
}

#[test]
fn effects_are_dropped_by_their_maps(rt: HostRuntime) -> Result<(), Fail> {
    assert!(rt; merge_to(rt.alloc(), &[(1, 9, -1), (0, 9, -1)], &[], &[(0, 9, -1)])?);
    Ok(())
}

#[test]
fn effects_on_the_configuration_stay(rt: HostRuntime) -> Result<(), Fail> {
    let first = [(100, 7, -1), (200, 9, -1)];
    assert!(rt; merge_to(rt.alloc(), &first, &[], &first)?);
    Ok(())
}

/// A spec that sets the root.
fn rooted(alloc: Global) -> Result<Spec<Plain>, AllocError> {
    let mut spec = changing(alloc, 0, 0, &[])?;
    let ids = vec![in alloc; 3, 4]?;
    spec.effects.push(Effect::Root(Listed::new(ids)))?;
    Ok(spec)
}

/// Whether a draft has one effect, which sets this root.
fn is_rooted(draft: &Draft<Plain>, want: &[u32]) -> bool {
    match draft.effects.as_slice() {
        [Effect::Root(ids)] => ids.as_slice() == want,
        _ => false,
    }
}

#[test]
fn a_root_is_kept(rt: HostRuntime) -> Result<(), Fail> {
    let draft = alone(rt.alloc(), rooted(rt.alloc())?)?;
    assert!(rt; is_rooted(&draft, &[3, 4]));
    Ok(())
}

/// The unknown id that a spec with these effects and a change out of range is refused with: of a compartment after 10, of a kind
/// after 20.
fn unknown_id(alloc: Global, codes: &[Coded]) -> Result<Option<u32>, AllocError> {
    let spec = telling(alloc, 9, 'x', codes)?;
    match alone(alloc, spec) {
        Err(TransactionError::UnknownCompartment { id }) => Ok(id.checked_add(10)),
        Err(TransactionError::UnknownEffect { id }) => Ok(id.checked_add(20)),
        _ => Ok(None),
    }
}

#[test]
fn the_first_unknown_is_refused(rt: HostRuntime) -> Result<(), Fail> {
    let compartment = (101, 0, -1);
    let kind = (3, 0, -1);
    assert!(rt; unknown_id(rt.alloc(), &[compartment, kind])? == Some(11));
    assert!(rt; unknown_id(rt.alloc(), &[kind, compartment])? == Some(23));
    Ok(())
}

/// Whether kept effects have these codes, in order.
fn are_kept(effects: &[KeptEffect], want: &[Coded]) -> bool {
    if effects.len() != want.len() {
        return false;
    }
    for (effect, wanted) in effects.iter().zip(want) {
        if code(effect.id, &effect.value) != *wanted
            || effect.map != KeptMap::of_number(effect.id)
        {
            return false;
        }
    }
    true
}

/// Whether these effects beside an insertion of one character at 1 are undone by those, where the kinds have these pairs.
fn undo_by(
    alloc: Global,
    pairs: &[Option<u32>],
    codes: &[Coded],
    want: &[Coded],
) -> Result<bool, TransactionError> {
    let spec = telling(alloc, 1, 'x', codes)?;
    let draft = alone(alloc, spec)?;
    let kinds = kinds(alloc)?;
    let kept = draft.inverted_effects(alloc, &kinds, pairs)?;
    Ok(are_kept(kept.as_slice(), want))
}

#[test]
fn effects_are_undone_in_reverse_order(rt: HostRuntime) -> Result<(), Fail> {
    let codes = [(0, 5, -1), (1, 3, -1), (100, 7, -1), (2, 0, 4), (1, 9, -1)];
    let pairs = [Some(0), Some(1), Some(2)];
    let want = [(2, 0, 3), (1, 2, -1), (0, 5, -1)];
    assert!(rt; undo_by(rt.alloc(), &pairs, &codes, &want)?);
    assert!(rt; undo_by(rt.alloc(), &[None, Some(1)], &codes, &[(1, 2, -1)])?);
    assert!(rt; undo_by(rt.alloc(), &[], &codes, &[])?);
    Ok(())
}

/// Whether a draft is that of no spec over four characters.
fn is_empty(draft: &Draft<Plain>) -> bool {
    draft.changes.is_empty()
        && draft.changes.len() == 4
        && draft.selection.is_none()
        && draft.effects.as_slice().is_empty()
        && draft.annotations.as_slice().is_empty()
        && draft.filter
}

#[test]
fn no_spec_at_all_is_an_empty_draft(rt: HostRuntime) -> Result<(), Fail> {
    let draft = merged(rt.alloc(), Vec::new(rt.alloc()))?;
    assert!(rt; is_empty(&draft));
    Ok(())
}
