// Change guards, transaction filters and extenders, by number.
use crate::made::{Made, Of, value_of};
use crate::views::{IDLE, Note, TYPED, Typed, shown};
use change_set::Change;
use cm_plain::Plain;
use shipped_rules::{extend, filter, guard};
use std::alloc::{AllocError, Global};
use std::test::*;
use transaction::{Annotation, Effect, Spec};
use values::{Extension, Filtering, Guarding, TrView, Val};

/// What a guard answers.
#[derive(Clone, Copy)]
enum Guarded<'a> {
    All,
    Nothing,
    Protected(&'a [(u32, u32)]),
}

fn is_guarded(answer: &Guarding, want: Guarded<'_>) -> bool {
    match (answer, want) {
        (Guarding::All, Guarded::All) => true,
        (Guarding::Nothing, Guarded::Nothing) => true,
        (Guarding::Protected(ranges), Guarded::Protected(want)) => ranges.as_slice() == want,
        _ => false,
    }
}

/// Whether a guard answers this of a transaction.
fn guards_by(
    alloc: Global,
    number: u32,
    transaction: &TrView,
    data: &Val,
    want: Guarded<'_>,
) -> Result<bool, AllocError> {
    let answer = guard(alloc, number, transaction, data)?;
    Ok(is_guarded(&answer, want))
}

/// Whether a guard answers this of a typed character.
fn guards(alloc: Global, number: u32, data: Made<'_>, want: Guarded<'_>) -> Result<bool, Fail> {
    let transaction = shown(alloc, TYPED, Of(&[]), Note::None)?;
    let data = value_of(alloc, data)?;
    Ok(guards_by(alloc, number, &transaction, &data, want)?)
}

#[test]
fn guards_answer_by_number(rt: HostRuntime) -> Result<(), Fail> {
    let places = [
        (0, 2),
        (5, 4),
        (-1, 2),
        (3, 4_294_967_295),
        (0, 4_294_967_296),
    ];
    for (number, data, want) in &[
        (1, Made::Pairs(&[(0, 2)]), Guarded::All),
        (2, Made::Pairs(&[(0, 2)]), Guarded::Nothing),
        (
            3,
            Made::Pairs(&places),
            Guarded::Protected(&[(0, 2), (5, 4), (3, 4_294_967_295)]),
        ),
        (3, Made::Ints(&[0, 2]), Guarded::Protected(&[])),
        (3, Made::Unit, Guarded::Protected(&[])),
    ] {
        assert!(rt; guards(rt.alloc(), *number, *data, *want)?, "at {number}");
    }
    Ok(())
}

/// What a filter answers: that the transaction stays, that nothing is done, or that a break follows at a place.
#[derive(Clone, Copy, PartialEq, Eq)]
enum Filtered {
    Keep,
    Nothing,
    Break(u32),
    Other,
}

/// Whether a spec has changes alone, is sequential and asks filters.
fn is_sequential(spec: &Spec<Val>) -> bool {
    spec.sequential
        && spec.filter
        && spec.selection.is_none()
        && spec.user_event.is_none()
        && spec.effects.as_slice().is_empty()
        && spec.annotations.as_slice().is_empty()
}

/// The break that a spec inserts: one character that makes two lines.
fn inserted(spec: &Spec<Val>) -> Filtered {
    match spec.changes.as_slice() {
        [Change::Span { from, to, insert }]
            if *from == *to && insert.len() == 1 && insert.text().lines() == 2 => {
            Filtered::Break(*from)
        }
        _ => Filtered::Other,
    }
}

fn following(specs: &[Spec<Val>]) -> Filtered {
    match specs {
        [spec] if is_sequential(spec) => inserted(spec),
        _ => Filtered::Other,
    }
}

fn seen(answer: &Filtering) -> Filtered {
    match answer {
        Filtering::Keep => Filtered::Keep,
        Filtering::Instead(specs) if specs.as_slice().is_empty() => Filtered::Nothing,
        Filtering::Instead(_) => Filtered::Other,
        Filtering::Also(specs) => following(specs.as_slice()),
    }
}

/// What a filter answers of a transaction.
fn filters_by(
    alloc: Global,
    number: u32,
    transaction: &TrView,
    data: &Val,
) -> Result<Filtered, AllocError> {
    let answer = filter(alloc, number, transaction, data)?;
    Ok(seen(&answer))
}

fn filters(alloc: Global, number: u32, typed: Typed<'_>, data: Made<'_>) -> Result<Filtered, Fail> {
    let transaction = shown(alloc, typed, Of(&[]), Note::None)?;
    let data = value_of(alloc, data)?;
    Ok(filters_by(alloc, number, &transaction, &data)?)
}

#[test]
fn filters_answer_by_number(rt: HostRuntime) -> Result<(), Fail> {
    for (number, typed, data, want) in &[
        (1, TYPED, Made::Ints(&[0]), Filtered::Keep),
        (2, TYPED, Made::Ints(&[9]), Filtered::Nothing),
        (3, TYPED, Made::Unit, Filtered::Break(3)),
        (3, IDLE, Made::Unit, Filtered::Keep),
        (4, TYPED, Made::Ints(&[2, -1]), Filtered::Nothing),
        (4, TYPED, Made::Ints(&[2, 3, 0]), Filtered::Keep),
        (4, IDLE, Made::Ints(&[1]), Filtered::Nothing),
        (4, TYPED, Made::Int(0), Filtered::Keep),
    ] {
        assert!(rt;
            filters(rt.alloc(), *number, *typed, *data)? == *want,
            "at {number}"
        );
    }
    Ok(())
}

/// What an extender adds: nothing, the annotation `touched`, or the effect `note` with a number.
#[derive(Clone, Copy, PartialEq, Eq)]
enum Added {
    Nothing,
    Touched,
    Note(i64),
    Other,
}

fn annotated(note: &Annotation) -> Added {
    match note.value {
        Plain::Bool(true) if note.kind.chars() == ['t', 'o', 'u', 'c', 'h', 'e', 'd'].as_slice() =>
            { Added::Touched }
        _ => Added::Other,
    }
}

fn noted(effect: &Effect<Val>) -> Added {
    match effect {
        Effect::Kind {
            id: 0,
            value: Val::Plain(Plain::Int(number)),
        } => Added::Note(*number),
        _ => Added::Other,
    }
}

fn additions(extension: &Extension) -> Added {
    match (
        extension.effects.as_slice(),
        extension.annotations.as_slice(),
    ) {
        ([], []) => Added::Nothing,
        ([], [note]) => annotated(note),
        ([effect], []) => noted(effect),
        _ => Added::Other,
    }
}

fn extended(alloc: Global, number: u32, transaction: &TrView) -> Result<Added, Fail> {
    let data = Val::Plain(Plain::Unit);
    Ok(additions(&extend(alloc, number, transaction, &data)?))
}

fn extends(alloc: Global, number: u32, typed: Typed<'_>) -> Result<Added, Fail> {
    let transaction = shown(alloc, typed, Of(&[]), Note::None)?;
    extended(alloc, number, &transaction)
}

#[test]
fn extenders_answer_by_number(rt: HostRuntime) -> Result<(), Fail> {
    for (number, typed, want) in &[
        (1, TYPED, Added::Nothing),
        (2, TYPED, Added::Touched),
        (2, IDLE, Added::Nothing),
        (3, TYPED, Added::Note(2)),
        (3, IDLE, Added::Note(2)),
    ] {
        assert!(rt;
            extends(rt.alloc(), *number, *typed)? == *want,
            "at {number}"
        );
    }
    Ok(())
}
