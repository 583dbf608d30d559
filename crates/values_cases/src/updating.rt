// Updaters by number.
use crate::made::{Drawn, Made, Of, is, value_of};
use crate::views::{IDLE, Note, Read, TYPED, Typed, deps_of, given, shown};
use shipped_rules::update;
use std::alloc::Global;
use std::test::*;
use values::{UpdateView, Val};

fn view_of(
    alloc: Global,
    typed: Typed<'_>,
    effects: Of<'_>,
    note: Note<'_>,
    read: Read<'_>,
) -> Result<UpdateView, Fail> {
    let transaction = shown(alloc, typed, effects, note)?;
    let deps = deps_of(alloc, read)?;
    Ok(UpdateView { transaction, deps })
}

/// Whether an updater makes this of an old value over what it is shown.
fn updates_by(
    alloc: Global,
    number: u32,
    old: &Val,
    view: &UpdateView,
    want: Made<'_>,
) -> Result<bool, Fail> {
    match update(alloc, number, old, view)? {
        Some(new) => is(alloc, &new, want),
        None => is(alloc, old, want),
    }
}

/// Whether an updater makes this of an old value over what is typed, effects and reads.
fn updates(
    alloc: Global,
    number: u32,
    old: Made<'_>,
    typed: Typed<'_>,
    effects: Of<'_>,
    read: Read<'_>,
    want: Made<'_>,
) -> Result<bool, Fail> {
    let view = view_of(alloc, typed, effects, Note::None, read)?;
    let old = value_of(alloc, old)?;
    updates_by(alloc, number, &old, &view, want)
}

/// No reads.
const NONE: Read<'static> = Read::Values(&[]);

#[test]
fn updaters_answer_by_number(rt: HostRuntime) -> Result<(), Fail> {
    let mixed = Of(&[Made::Int(1), Made::Text("a"), Made::Ranges(&[])]);
    for (number, old, typed, effects, want) in &[
        (1, Made::Int(3), TYPED, mixed, Made::Int(3)),
        (2, Made::Int(3), TYPED, mixed, Made::Int(4)),
        (2, Made::Int(3), IDLE, mixed, Made::Int(3)),
        (2, Made::Int(i64::MAX), TYPED, Of(&[]), Made::Int(i64::MAX)),
        (3, Made::Int(3), TYPED, mixed, Made::Text("a")),
        (3, Made::Int(3), TYPED, Of(&[]), Made::Int(3)),
        (
            7,
            Made::Ints(&[5]),
            IDLE,
            Of(&[Made::Int(1), Made::Ranges(&[]), Made::Int(2)]),
            Made::Ints(&[5, 1, 2]),
        ),
    ] {
        assert!(rt;
            updates(rt.alloc(), *number, *old, *typed, *effects, NONE, *want)?,
            "at {number}"
        );
    }
    Ok(())
}

#[test]
fn the_first_read_is_the_new_value(rt: HostRuntime) -> Result<(), Fail> {
    for (read, want) in &[
        (Some(Made::Text("a")), Made::Text("a")),
        (Some(Made::Ranges(&[])), Made::Unit),
        (None, Made::Unit),
    ] {
        let reads = [*read, Some(Made::Int(1))];
        assert!(rt;
            updates(
                rt.alloc(),
                8,
                Made::Int(3),
                TYPED,
                Of(&[Made::Int(2)]),
                Read::Values(&reads),
                *want
            )?
        );
    }
    Ok(())
}

/// The text `ab`, and a `c` before it.
const BEFORE: Typed<'static> = Typed {
    start: "ab",
    from: 0,
    to: 0,
    insert: "c",
};

#[test]
fn marks_are_mapped_and_added(rt: HostRuntime) -> Result<(), Fail> {
    let old = Made::Ranges(&[(0, 1), (1, 9)]);
    for (typed, effects, want) in &[
        (BEFORE, Of(&[]), Made::Set(&[Drawn::Mark(1, 2)])),
        (
            BEFORE,
            Of(&[
                Made::Ints(&[1, 3]),
                Made::Ints(&[0, 4]),
                Made::Ints(&[1, 1]),
            ]),
            Made::Set(&[Drawn::Mark(1, 2), Drawn::Reversed(1, 3)]),
        ),
        (
            IDLE,
            Of(&[Made::Ints(&[1, 2]), Made::Unit, Made::Ints(&[0, 1])]),
            Made::Set(&[Drawn::Reversed(0, 1), Drawn::Reversed(1, 2)]),
        ),
    ] {
        assert!(rt; updates(rt.alloc(), 4, old, *typed, *effects, NONE, *want)?);
    }
    Ok(())
}

#[test]
fn lines_are_marked(rt: HostRuntime) -> Result<(), Fail> {
    let old = Made::Ranges(&[(0, 1), (1, 9)]);
    let effects = Of(&[Made::Int(3), Made::Int(1), Made::Int(0), Made::Int(-1)]);
    let lines = Read::Document("ab\nc");
    let bold = [Drawn::Bold(0), Drawn::Mark(1, 2), Drawn::Bold(3)];
    let kept = [Drawn::Mark(1, 2)];
    assert!(rt; updates(rt.alloc(), 5, old, BEFORE, effects, lines, Made::Set(&bold))?);
    assert!(rt; updates(rt.alloc(), 5, old, BEFORE, effects, NONE, Made::Set(&kept))?);
    Ok(())
}

/// Whether an updater says that a value is as before.
fn stays(
    alloc: Global,
    number: u32,
    old: Made<'_>,
    typed: Typed<'_>,
    effects: Of<'_>,
) -> Result<bool, Fail> {
    let view = view_of(alloc, typed, effects, Note::None, NONE)?;
    let old = value_of(alloc, old)?;
    Ok(update(alloc, number, &old, &view)?.is_none())
}

#[test]
fn what_stays_is_not_made_anew(rt: HostRuntime) -> Result<(), Fail> {
    let inside = Made::Ranges(&[(0, 1), (1, 2)]);
    let none = Of(&[]);
    for (number, old, typed, effects, want) in &[
        (1, Made::Int(3), TYPED, none, true),
        (2, Made::Int(3), IDLE, none, true),
        (2, Made::Int(3), TYPED, none, false),
        (3, Made::Int(3), TYPED, none, true),
        (3, Made::Int(3), TYPED, Of(&[Made::Int(3)]), false),
        (4, inside, IDLE, none, true),
        (4, inside, BEFORE, none, false),
        (4, inside, IDLE, Of(&[Made::Unit]), false),
        (4, Made::Ranges(&[(0, 1), (1, 9)]), IDLE, none, false),
        (4, Made::Set(&[Drawn::Mark(1, 1)]), IDLE, none, false),
        (4, Made::Int(3), IDLE, none, false),
        (5, inside, IDLE, none, true),
        (5, inside, IDLE, Of(&[Made::Int(0)]), false),
        (6, Made::Int(3), TYPED, none, true),
        (7, Made::Ints(&[5]), TYPED, Of(&[inside]), true),
        (7, Made::Ints(&[5]), TYPED, Of(&[Made::Int(5)]), false),
        (7, Made::Int(5), TYPED, none, false),
        (8, Made::Int(5), IDLE, none, false),
    ] {
        assert!(rt;
            stays(rt.alloc(), *number, *old, *typed, *effects)? == *want,
            "at {number}"
        );
    }
    Ok(())
}

/// The history after what is typed, with an annotation.
fn stepped(
    alloc: Global,
    old: &Val,
    typed: Typed<'_>,
    note: Note<'_>,
    read: Read<'_>,
) -> Result<Val, Fail> {
    let view = view_of(alloc, typed, Of(&[]), note, read)?;
    match update(alloc, 6, old, &view)? {
        Some(next) => Ok(next),
        None => Ok(old.try_copy(alloc)?),
    }
}

/// How many Changes can be undone, and how many done again; `None` where the value is no history.
fn depth(value: &Val) -> Option<(usize, usize)> {
    match value {
        Val::History(history) => Some(history.depth()),
        _ => None,
    }
}

/// How many Changes can be undone after what is typed.
fn first(
    alloc: Global,
    typed: Typed<'_>,
    note: Note<'_>,
    read: Read<'_>,
) -> Result<Option<(usize, usize)>, Fail> {
    let old = value_of(alloc, Made::History)?;
    Ok(depth(&stepped(alloc, &old, typed, note, read)?))
}

#[test]
fn a_history_takes_what_is_typed(rt: HostRuntime) -> Result<(), Fail> {
    for (typed, note, want) in &[
        (TYPED, Note::None, 1),
        (IDLE, Note::None, 0),
        (TYPED, Note::Of("addToHistory", Made::Bool(false)), 0),
        (TYPED, Note::Of("addToHistory", Made::Int(0)), 1),
        (TYPED, Note::Of("fromHistory", Made::Int(0)), 0),
        (IDLE, Note::Undoes(1), 1),
    ] {
        assert!(rt; first(rt.alloc(), *typed, *note, NONE)? == Some((*want, 0)));
    }
    Ok(())
}

#[test]
fn a_history_reads_its_depth_first(rt: HostRuntime) -> Result<(), Fail> {
    for (bounds, want) in &[
        (Made::Ints(&[0, 500]), 0),
        (Made::Ints(&[1, 0]), 1),
        (Made::Ints(&[0]), 1),
        (Made::Int(0), 1),
    ] {
        let reads = [Some(*bounds)];
        assert!(rt;
            first(rt.alloc(), TYPED, Note::None, Read::Values(&reads))? == Some((*want, 0))
        );
    }
    Ok(())
}

/// The text `abc`, and a `d` after it.
const MORE: Typed<'static> = Typed {
    start: "abc",
    from: 3,
    to: 3,
    insert: "d",
};

/// The history after what is typed at a time, in milliseconds.
fn timed(
    alloc: Global,
    old: &Val,
    typed: Typed<'_>,
    time: i64,
    bounds: Made<'_>,
) -> Result<Val, Fail> {
    let reads = [Some(bounds)];
    let note = Note::Of("time", Made::Int(time));
    stepped(alloc, old, typed, note, Read::Values(&reads))
}

/// The history after a first character.
fn once(alloc: Global, bounds: Made<'_>) -> Result<Val, Fail> {
    let old = value_of(alloc, Made::History)?;
    timed(alloc, &old, TYPED, 0, bounds)
}

/// How many Changes can be undone after two characters, the second 100 milliseconds later.
fn second(alloc: Global, bounds: Made<'_>) -> Result<Option<(usize, usize)>, Fail> {
    let once = once(alloc, bounds)?;
    let twice = timed(alloc, &once, MORE, 100, bounds)?;
    Ok(depth(&twice))
}

#[test]
fn a_history_joins_within_its_delay(rt: HostRuntime) -> Result<(), Fail> {
    assert!(rt; second(rt.alloc(), Made::Ints(&[5, 101]))? == Some((1, 0)));
    assert!(rt; second(rt.alloc(), Made::Ints(&[5, 100]))? == Some((2, 0)));
    assert!(rt; second(rt.alloc(), Made::Unit)? == Some((1, 0)));
    Ok(())
}

/// The text `abc`, and nothing replaced.
const STILL: Typed<'static> = Typed {
    start: "abc",
    from: 0,
    to: 0,
    insert: "",
};

/// The text `abcd`, and nothing replaced.
const STILL_MORE: Typed<'static> = Typed {
    start: "abcd",
    from: 0,
    to: 0,
    insert: "",
};

/// The text `abcd` without its last character.
const LESS: Typed<'static> = Typed {
    start: "abcd",
    from: 3,
    to: 4,
    insert: "",
};

/// A history: without items, of one Change that leads to `abc`, of two that lead to `abcd`, of these where the second was undone,
/// and of the one with a Select after it.
#[derive(Clone, Copy)]
enum Old {
    Empty,
    Once,
    Twice,
    Undone,
    Selected,
}

fn twice(alloc: Global) -> Result<Val, Fail> {
    let bounds = Made::Ints(&[5, 0]);
    let once = once(alloc, bounds)?;
    timed(alloc, &once, MORE, 100, bounds)
}

fn undone(alloc: Global) -> Result<Val, Fail> {
    let twice = twice(alloc)?;
    let note = Note::Of("fromHistory", Made::Int(0));
    stepped(alloc, &twice, LESS, note, NONE)
}

/// What an updater is shown where a cursor is given in the text `abc`.
fn cursor_given(alloc: Global, head: u32) -> Result<UpdateView, Fail> {
    let transaction = given(alloc, STILL, head, Of(&[]), Note::None)?;
    let deps = deps_of(alloc, NONE)?;
    Ok(UpdateView { transaction, deps })
}

/// What the updater of histories makes of one of one Change where a cursor is given.
fn after_a_cursor(alloc: Global, head: u32) -> Result<Option<Val>, Fail> {
    let once = once(alloc, Made::Ints(&[5, 0]))?;
    let view = cursor_given(alloc, head)?;
    Ok(update(alloc, 6, &once, &view)?)
}

fn selected(alloc: Global) -> Result<Val, Fail> {
    match after_a_cursor(alloc, 2)? {
        Some(next) => Ok(next),
        None => Err("a history with a Select".into()),
    }
}

fn old_of(alloc: Global, old: Old) -> Result<Val, Fail> {
    match old {
        Old::Empty => value_of(alloc, Made::History),
        Old::Once => once(alloc, Made::Ints(&[5, 0])),
        Old::Twice => twice(alloc),
        Old::Undone => undone(alloc),
        Old::Selected => selected(alloc),
    }
}

/// How many items can be undone, and how many done again; `None` where the value is no history.
fn items(alloc: Global, old: Old) -> Result<Option<(usize, usize)>, Fail> {
    match old_of(alloc, old)? {
        Val::History(history) => Ok(Some(history.items())),
        _ => Ok(None),
    }
}

/// What is typed, the values of effects, an annotation, and the depth that is read.
type Heard<'a> = (Typed<'a>, Of<'a>, Note<'a>, i64);

/// Whether an updater says that a history is as before after this.
fn is_left(alloc: Global, old: Old, heard: Heard<'_>) -> Result<bool, Fail> {
    let (typed, effects, note, depth) = heard;
    let bounds = [depth, 0];
    let reads = [Some(Made::Ints(&bounds))];
    let view = view_of(alloc, typed, effects, note, Read::Values(&reads))?;
    let old = old_of(alloc, old)?;
    Ok(update(alloc, 6, &old, &view)?.is_none())
}

/// No effects.
const BARE: Of<'static> = Of(&[]);

#[test]
fn a_history_stays_where_nothing_is_for_it(rt: HostRuntime) -> Result<(), Fail> {
    for (note, depth, want) in &[
        (Note::None, 1, true),
        (Note::None, 100, true),
        (Note::None, 0, false),
        (Note::None, -1, false),
        (Note::Of("time", Made::Int(7)), 1, true),
        (Note::Of("userEvent", Made::Text("input")), 1, true),
        (Note::Of("isolateHistory", Made::Text("full")), 1, true),
        (Note::Of("addToHistory", Made::Bool(false)), 1, true),
        (Note::Of("fromHistory", Made::Text("0")), 1, true),
        (Note::Of("fromHistory", Made::Int(2)), 1, false),
        (Note::Undoes(1), 1, false),
    ] {
        assert!(rt; is_left(rt.alloc(), Old::Once, (STILL, BARE, *note, *depth))? == *want);
    }
    Ok(())
}

#[test]
fn other_histories_stay(rt: HostRuntime) -> Result<(), Fail> {
    for (old, typed, effects, depth, want) in &[
        (Old::Once, STILL, Of(&[Made::Int(1)]), 1, true),
        (Old::Once, MORE, BARE, 1, false),
        // a history that doesn't lead from the text `ab`
        (Old::Once, IDLE, BARE, 1, false),
        (Old::Empty, IDLE, BARE, 5, false),
        (Old::Twice, STILL_MORE, BARE, 2, true),
        (Old::Twice, STILL_MORE, BARE, 1, false),
        (Old::Undone, STILL, BARE, 1, true),
        (Old::Selected, STILL, BARE, 5, false),
    ] {
        let heard = (*typed, *effects, Note::None, *depth);
        assert!(rt; is_left(rt.alloc(), *old, heard)? == *want);
    }
    assert!(rt; items(rt.alloc(), Old::Undone)? == Some((1, 1)));
    assert!(rt; items(rt.alloc(), Old::Selected)? == Some((2, 0)));
    Ok(())
}

#[test]
fn a_history_hears_of_a_selection(rt: HostRuntime) -> Result<(), Fail> {
    assert!(rt; after_a_cursor(rt.alloc(), 0)?.is_some());
    Ok(())
}
