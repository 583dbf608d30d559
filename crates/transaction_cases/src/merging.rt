ghost use Rattle.std.specs.Prelude.{◌≤◌};
ghost use Rattle.change_desc.specs.Sections.{new_size, spelled};
ghost use Rattle.transaction.specs.Merging.{IsDraft};

use crate::drafts::{
    PlainMaps, alone, are_effects, change, changing, effect, kinds, place, together,
};
use change_set::ChangeSet;
use cm_plain::{Plain, Str};
use line_tree::Text;
use selection::Selection;
use std::alloc::{AllocError, Global};
use std::test::Fail;
use transaction::{Annotation, Draft, Frame, Spec, TransactionError, USER_EVENT, merge};

/// A spec of one insertion that sets a selection.
fn selecting(
    alloc: Global,
    at: u32,
    inserted: char,
    selected: u32,
) -> Result<Spec<Plain>, AllocError> {
    let selection = place(alloc, selected)?;
    let mut spec = changing(alloc, at, at, &[inserted])?;
    spec.selection = Some(selection);
    Ok(spec)
}

/// A spec of one insertion with a user event.
fn eventful(alloc: Global) -> Result<Spec<Plain>, AllocError> {
    let event = Str::of_text(alloc, "select.word")?;
    let mut spec = changing(alloc, 1, 1, &['x'])?;
    spec.user_event = Some(event);
    Ok(spec)
}

/// Two insertions at one place, the first with an event, the second with a selection.
fn both_at_one_place(alloc: Global) -> Result<Box<Draft<Plain>>, TransactionError> {
    let first = eventful(alloc)?;
    let second = selecting(alloc, 1, 'y', 1)?;
    together(alloc, first, second)
}

/// Whether a draft makes this text of the document "abcd".
fn is_text_after(alloc: Global, draft: &Draft<Plain>, want: &[char]) -> Result<bool, AllocError> {
    let document = Text::of(alloc, &['a', 'b', 'c', 'd'])?;
    if document.len() != draft.changes.len() {
        return Ok(false);
    }
    let after = draft.changes.apply(&document)?;
    Ok(after.chars()?.as_slice() == want)
}

/// Whether a selection is one cursor at a place.
fn is_cursor(selection: &Option<Selection>, at: u32) -> bool {
    match selection {
        None => false,
        Some(selection) => match selection.ranges() {
            [range] => range.anchor == at && range.head == at,
            _ => false,
        },
    }
}

/// Whether annotations are one user event with this name.
fn are_one_event(annotations: &[Annotation], want: &[char]) -> bool {
    match annotations {
        [
            Annotation {
                kind,
                value: Plain::Text(name),
            },
        ] => { kind.chars() == USER_EVENT.as_slice() && name.chars() == want }
        _ => false,
    }
}

/// Whether the merge of both insertions is as it is to be.
fn are_merged(alloc: Global, event: &[char]) -> Result<bool, TransactionError> {
    let draft = both_at_one_place(alloc)?;
    Ok(
        is_text_after(alloc, &draft, &['a', 'x', 'y', 'b', 'c', 'd'])?
            && is_cursor(&draft.selection, 1)
            && are_one_event(draft.annotations.as_slice(), event)
            && draft.filter,
    )
}

#[test]
fn specs_merge_over_one_document(rt: HostRuntime) -> Result<(), Fail> {
    let event = ['s', 'e', 'l', 'e', 'c', 't', '.', 'w', 'o', 'r', 'd'];
    assert!(rt; are_merged(rt.alloc(), &event)?);
    Ok(())
}

fn is_user_event(alloc: Global, name: &str) -> Result<bool, TransactionError> {
    let name = Str::of_text(alloc, name)?;
    let draft = both_at_one_place(alloc)?;
    Ok(draft.is_user_event(&name))
}

#[test]
fn user_events_are_found(rt: HostRuntime) -> Result<(), Fail> {
    assert!(rt; is_user_event(rt.alloc(), "select")?);
    assert!(rt; !is_user_event(rt.alloc(), "sel")?);
    Ok(())
}

/// A draft with one more spec.
fn merged_with(
    alloc: Global,
    draft: Box<Draft<Plain>>,
    spec: Spec<Plain>,
) -> Result<Box<Draft<Plain>>, TransactionError>
    requires draft { IsDraft 4 draft.value }
    requires short { new_size spelled draft.value.changes ≤ 100 }
{
    let kinds = kinds(alloc)?;
    let maps = PlainMaps { alloc };
    let frame = Frame {
        len: 4,
        max: 100,
        kinds: &kinds,
        maps: &maps,
    };
    merge(alloc, draft, spec, &frame)
}

/// A spec that is asked for no filter, after the one before it, with an effect.
fn last(alloc: Global) -> Result<Spec<Plain>, AllocError> {
    let effect = effect(alloc, (1, 5, -1))?;
    let mut spec = selecting(alloc, 5, 'y', 6)?;
    spec.effects.push(effect)?;
    spec.sequential = true;
    spec.filter = false;
    Ok(spec)
}

/// An insertion at the end with a selection and an effect.
fn first(alloc: Global) -> Result<Spec<Plain>, AllocError> {
    let effect = effect(alloc, (1, 5, -1))?;
    let mut spec = selecting(alloc, 4, 'x', 0)?;
    spec.effects.push(effect)?;
    Ok(spec)
}

fn one_more(alloc: Global) -> Result<Box<Draft<Plain>>, TransactionError> {
    let next = last(alloc)?;
    let draft = alone(alloc, first(alloc)?)?;
    merged_with(alloc, draft, next)
}

/// Whether changes of a document of four characters are the insertion of these at its end.
fn append(alloc: Global, changes: &ChangeSet, inserted: &[char]) -> Result<bool, AllocError> {
    let want = change(alloc, 4, 4, inserted)?;
    match ChangeSet::of(alloc, want.as_slice(), 4, 100) {
        Ok(want) => Ok(want.same(changes)),
        Err(_) => Ok(false),
    }
}

/// Whether the draft with one more spec is as it is to be.
fn is_one_more(alloc: Global) -> Result<bool, TransactionError> {
    let both = one_more(alloc)?;
    Ok(
        append(alloc, &both.changes, &['x', 'y'])?
            && is_cursor(&both.selection, 6)
            && are_effects(both.effects.as_slice(), &[(1, 6, -1), (1, 5, -1)])
            && both.annotations.as_slice().is_empty()
            && !both.filter,
    )
}

#[test]
fn a_draft_takes_one_more_spec(rt: HostRuntime) -> Result<(), Fail> {
    assert!(rt; is_one_more(rt.alloc())?);
    Ok(())
}

fn past_the_end(alloc: Global) -> Result<Box<Draft<Plain>>, TransactionError> {
    let first = changing(alloc, 0, 0, &['x'])?;
    let second = changing(alloc, 5, 5, &['y'])?;
    together(alloc, first, second)
}

#[test]
fn ranges_are_refused(rt: HostRuntime) {
    assert!(rt;
        matches!(
            past_the_end(rt.alloc()),
            Err(TransactionError::BadRange {
                index: 0,
                from: 5,
                to: 5,
                len: 4
            })
        )
    );
}

fn selecting_outside(alloc: Global) -> Result<Box<Draft<Plain>>, TransactionError> {
    let spec = selecting(alloc, 0, 'x', 9)?;
    alone(alloc, spec)
}

#[test]
fn selections_are_refused(rt: HostRuntime) {
    assert!(rt;
        matches!(
            selecting_outside(rt.alloc()),
            Err(TransactionError::SelectionOutside { pos: 9, len: 5 })
        )
    );
}

/// An annotation of the time.
fn time(alloc: Global, number: i64) -> Result<Annotation, AllocError> {
    Ok(Annotation {
        kind: Str::of_text(alloc, "time")?,
        value: Plain::Int(number),
    })
}

/// A spec of one insertion that has the times 5 and 6.
fn timed(alloc: Global) -> Result<Spec<Plain>, AllocError> {
    let mut spec = changing(alloc, 0, 0, &['x'])?;
    spec.annotations.push(time(alloc, 5)?)?;
    spec.annotations.push(time(alloc, 6)?)?;
    Ok(spec)
}

/// The number that a timed draft has under this name, if any.
fn number_of(alloc: Global, name: &str) -> Result<Option<i64>, TransactionError> {
    let name = Str::of_text(alloc, name)?;
    let draft = alone(alloc, timed(alloc)?)?;
    match draft.annotation(&name) {
        Some(Plain::Int(number)) => Ok(Some(*number)),
        Some(_) => Ok(Some(-1)),
        None => Ok(None),
    }
}

#[test]
fn the_first_annotation_counts(rt: HostRuntime) -> Result<(), Fail> {
    assert!(rt; number_of(rt.alloc(), "time")? == Some(5));
    assert!(rt; number_of(rt.alloc(), "other")? == None);
    Ok(())
}
