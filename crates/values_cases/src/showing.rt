// What is shown of a transaction.
use crate::made::{Made, Of};
use crate::views::{Note, TYPED, given, shown};
use cm_plain::Plain;
use listed::Listed;
use std::alloc::Global;
use std::test::*;
use values::{TrView, Val};

/// Whether the changes, the lengths of the start and the new document, and the cursors are those of a `c` typed after `ab`.
fn is_typed(view: &TrView, head: u32) -> bool {
    view.changes().len() == 2
        && view.changes().new_len() == 3
        && view.start().len() == 2
        && view.document().len() == 3
        && view.start_selection().main().head == 0
        && view.selection().main().head == head
}

fn is_int(plain: &Plain, want: i64) -> bool {
    match plain {
        Plain::Int(number) => *number == want,
        _ => false,
    }
}

fn is_number(value: &Val, want: i64) -> bool {
    match value {
        Val::Plain(plain) => is_int(plain, want),
        _ => false,
    }
}

/// Whether the one effect is of kind 0 and this number.
fn has_effect(view: &TrView, want: i64) -> bool {
    match view.effects() {
        [effect] => effect.id == 0 && is_number(&effect.value, want),
        _ => false,
    }
}

/// Whether the one kept effect is of kind 1 and this number.
fn has_kept(view: &TrView, want: i64) -> bool {
    match view.inverted() {
        [kept] => kept.id == 1 && kept.map.is_none() && is_int(&kept.value, want),
        _ => false,
    }
}

/// Whether the one annotation is `time` with this number.
fn has_time(view: &TrView, want: i64) -> bool {
    match view.annotations() {
        [note] => {
            note.kind.chars() == ['t', 'i', 'm', 'e'].as_slice() && is_int(&note.value, want)
        }
        _ => false,
    }
}

fn with_time(alloc: Global) -> Result<bool, Fail> {
    let note = Note::Of("time", Made::Int(5));
    let view = shown(alloc, TYPED, Of(&[Made::Int(7)]), note)?;
    Ok(
        is_typed(&view, 0)
            && !view.is_given()
            && has_effect(&view, 7)
            && has_time(&view, 5)
            && view.inverted().is_empty(),
    )
}

fn with_selection(alloc: Global) -> Result<bool, Fail> {
    let view = given(alloc, TYPED, 3, Of(&[]), Note::Undoes(8))?;
    Ok(
        is_typed(&view, 3)
            && view.is_given()
            && view.effects().is_empty()
            && has_kept(&view, 8)
            && view.annotations().is_empty(),
    )
}

/// Whether the same transaction with no effects has all else, and the first view its effect still.
fn with_no_effects(alloc: Global) -> Result<bool, Fail> {
    let view = given(alloc, TYPED, 3, Of(&[Made::Int(7)]), Note::Undoes(8))?;
    let other = view.with_effects(Listed::empty(alloc))?;
    Ok(
        is_typed(&other, 3)
            && other.is_given()
            && other.effects().is_empty()
            && has_kept(&other, 8)
            && other.annotations().is_empty()
            && has_effect(&view, 7),
    )
}

#[test]
fn a_transaction_is_shown(rt: HostRuntime) -> Result<(), Fail> {
    assert!(rt; with_time(rt.alloc())?);
    assert!(rt; with_selection(rt.alloc())?);
    assert!(rt; with_no_effects(rt.alloc())?);
    Ok(())
}
