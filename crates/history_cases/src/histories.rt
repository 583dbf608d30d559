use crate::acts::{Act, Twist, restored, text};
use crate::scenes::{Scene, acted, played};
use history::{History, Isolation};
use line_tree::Text;
use std::alloc::{AllocError, Global};
use std::test::Fail;

/// Whether a document has these characters.
fn is_spelled(document: &Text, characters: &[char]) -> Result<bool, AllocError> {
    let shown = document.chars()?;
    Ok(shown.as_slice() == characters)
}

/// Whether acts from a document without characters lead to a document and a history with so many Changes.
fn lead_to(
    acts: &[(Act, Twist)],
    alloc: Global,
    depth: (usize, usize),
    document: &[char],
) -> Result<bool, Fail> {
    let scene = played(alloc, &[], acts)?;
    Ok(scene.history.depth() == depth && is_spelled(&scene.document, document)?)
}

#[test]
fn changes_join_a_group_or_make_one(rt: HostRuntime) -> Result<(), Fail> {
    for (twist, groups) in &[
        (Twist::None, 1),
        (Twist::Isolated(Isolation::Before), 2),
        (Twist::Isolated(Isolation::After), 1),
        (Twist::Isolated(Isolation::Full), 2),
        (Twist::At(None), 2),
        (Twist::At(Some(499)), 1),
        (Twist::At(Some(500)), 2),
        (Twist::At(Some(-1)), 1),
        (Twist::Delay(0), 2),
        (Twist::Depth(0), 0),
        (Twist::Depth(-1), 0),
        (Twist::Event("input.type"), 1),
        (Twist::Event("delete.word"), 1),
        (Twist::Event("input.paste"), 2),
    ] {
        let acts = [
            (Act::Insert(0, 'a'), Twist::None),
            (Act::Insert(1, 'b'), *twist),
        ];
        assert!(rt; lead_to(&acts, rt.alloc(), (*groups, 0), &['a', 'b'])?);
    }
    Ok(())
}

#[test]
fn a_change_after_an_isolated_or_timeless_one_makes_a_group(rt: HostRuntime) -> Result<(), Fail> {
    for twist in &[Twist::Isolated(Isolation::After), Twist::At(None)] {
        let acts = [
            (Act::Insert(0, 'a'), *twist),
            (Act::Insert(1, 'b'), Twist::None),
        ];
        assert!(rt; lead_to(&acts, rt.alloc(), (2, 0), &['a', 'b'])?);
    }
    Ok(())
}

#[test]
fn a_selection_between_changes_closes_the_group(rt: HostRuntime) -> Result<(), Fail> {
    for (between, groups) in &[
        (Act::Nothing, 1),
        (Act::Select(1, 1), 2),
        (Act::Select(0, 1), 2),
    ] {
        let acts = [
            (Act::Insert(0, 'a'), Twist::None),
            (*between, Twist::None),
            (Act::Insert(1, 'b'), Twist::None),
        ];
        assert!(rt; lead_to(&acts, rt.alloc(), (*groups, 0), &['a', 'b'])?);
    }
    Ok(())
}

#[test]
fn changes_that_do_not_touch_make_groups(rt: HostRuntime) -> Result<(), Fail> {
    for (at, groups) in &[(0, 1), (1, 1), (2, 2), (3, 2)] {
        let acts = [
            (Act::Insert(0, 'a'), Twist::Unrecorded),
            (Act::Insert(1, 'a'), Twist::Unrecorded),
            (Act::Insert(0, 'a'), Twist::None),
            (Act::Insert(*at, 'a'), Twist::None),
        ];
        assert!(rt; lead_to(&acts, rt.alloc(), (*groups, 0), &['a', 'a', 'a', 'a'])?);
    }
    Ok(())
}

#[test]
fn a_deletion_leaves_a_change_where_it_is_recorded(rt: HostRuntime) -> Result<(), Fail> {
    for (twist, groups) in &[
        (Twist::Unrecorded, 0),
        (Twist::From(7), 0),
        (Twist::Event("delete"), 1),
    ] {
        let acts = [
            (Act::Insert(0, 'a'), Twist::None),
            (Act::Delete(0, 1), *twist),
        ];
        assert!(rt; lead_to(&acts, rt.alloc(), (*groups, 0), &[])?);
    }
    Ok(())
}

#[test]
fn a_step_without_changes_undoes_a_change_without_them(rt: HostRuntime) -> Result<(), Fail> {
    let acts = [
        (Act::Insert(0, 'a'), Twist::None),
        (Act::Delete(0, 1), Twist::Event("delete")),
        (Act::Nothing, Twist::From(0)),
    ];
    assert!(rt; lead_to(&acts, rt.alloc(), (0, 1), &[])?);
    Ok(())
}

/// Two characters typed, two others put before them that are not recorded, an undo and a redo.
const REDONE: [(Act, Twist); 6] = [
    (Act::Insert(0, 'a'), Twist::None),
    (Act::Insert(1, 'b'), Twist::None),
    (Act::Insert(0, 'z'), Twist::Unrecorded),
    (Act::Insert(0, 'z'), Twist::Unrecorded),
    (Act::Undo, Twist::None),
    (Act::Redo, Twist::None),
];

#[test]
fn an_undo_passes_over_other_changes(rt: HostRuntime) -> Result<(), Fail> {
    assert!(rt; lead_to(&REDONE[..5], rt.alloc(), (0, 1), &['z', 'z'])?);
    Ok(())
}

#[test]
fn a_redo_passes_over_other_changes(rt: HostRuntime) -> Result<(), Fail> {
    assert!(rt; lead_to(&REDONE, rt.alloc(), (1, 0), &['z', 'z', 'a', 'b'])?);
    Ok(())
}

/// Whether acts from "ab" lead to this selection and document.
fn select_to(
    acts: &[(Act, Twist)],
    alloc: Global,
    selected: (u32, u32),
    document: &[char],
) -> Result<bool, Fail> {
    let scene = played(alloc, &['a', 'b'], acts)?;
    Ok(scene.selected == selected && is_spelled(&scene.document, document)?)
}

#[test]
fn selections_are_undone_and_redone_among_changes(rt: HostRuntime) -> Result<(), Fail> {
    let undo = (Act::UndoSelection, Twist::None);
    let redo = (Act::RedoSelection, Twist::None);
    let acts = [
        (Act::Select(2, 2), Twist::None),
        (Act::Insert(2, 'c'), Twist::None),
        (Act::Select(0, 1), Twist::None),
        undo,
        undo,
        undo,
        redo,
        redo,
        redo,
    ];
    for (count, selected, document) in &[
        (4, (3, 3), "abc"),
        (5, (2, 2), "ab"),
        (6, (0, 0), "ab"),
        (7, (2, 2), "ab"),
        (8, (3, 3), "abc"),
        (9, (0, 1), "abc"),
    ] {
        let shown: &[char] = if document.len() == 3 {
            &['a', 'b', 'c']
        } else {
            &['a', 'b']
        };
        assert!(rt;
            select_to(&acts[..*count], rt.alloc(), *selected, shown)?,
            "{count}"
        );
    }
    Ok(())
}

/// Whether, after an insertion at the start that tells 2 and another there that is not recorded, an undo gives this document,
/// tells this number and gives this selection, and leaves a Select to be undone and a Change to be done again.
fn undo_gives(
    alloc: Global,
    document: &[char],
    told: i64,
    selected: (u32, u32),
) -> Result<bool, Fail> {
    let acts = [
        (Act::Select(2, 2), Twist::None),
        (Act::Insert(0, 'c'), Twist::Tells(2)),
        (Act::Insert(0, 'z'), Twist::Unrecorded),
        (Act::Undo, Twist::None),
    ];
    let scene = played(alloc, &['a', 'b'], &acts)?;
    Ok(
        is_spelled(&scene.document, document)?
            && scene.told == Some(told)
            && scene.selected == selected
            && scene.history.depth() == (0, 1)
            && scene.history.items() == (1, 1),
    )
}

#[test]
fn an_undo_gives_back_a_selection_and_an_effect(rt: HostRuntime) -> Result<(), Fail> {
    assert!(rt; undo_gives(rt.alloc(), &['z', 'a', 'b'], 3, (3, 3))?);
    Ok(())
}

/// Whether an act restores something at first.
fn restores_at_first(alloc: Global, act: Act) -> Result<bool, AllocError> {
    let history = History::empty(alloc)?;
    Ok(restored(&history, act)?.is_some())
}

#[test]
fn nothing_is_there_to_be_restored_at_first(rt: HostRuntime) -> Result<(), Fail> {
    for act in &[Act::Undo, Act::Redo, Act::UndoSelection, Act::RedoSelection] {
        assert!(rt; !restores_at_first(rt.alloc(), *act)?);
    }
    Ok(())
}

/// The numbers of Changes and of items, each that can be undone and that can be done again, after selections 100 milliseconds
/// apart, under an event.
fn kept_selections(alloc: Global, event: Twist) -> Result<((usize, usize), (usize, usize)), Fail> {
    let acts = [
        (Act::Insert(0, 'a'), Twist::None),
        (Act::Select(1, 0), event),
        (Act::Select(0, 1), event),
        (Act::Select(0, 1), event),
    ];
    let scene = played(alloc, &[], &acts)?;
    Ok((scene.history.depth(), scene.history.items()))
}

#[test]
fn selections_join(rt: HostRuntime) -> Result<(), Fail> {
    for (event, items) in &[
        (Twist::None, 3),
        (Twist::Event("select.word"), 2),
        (Twist::Event("input"), 3),
        (Twist::Unrecorded, 1),
    ] {
        assert!(rt; kept_selections(rt.alloc(), *event)? == ((1, 0), (*items, 0)));
    }
    Ok(())
}

/// The history after the first four of `REDONE`.
fn moved(alloc: Global) -> Result<History, Fail> {
    let Scene { history, .. } = played(alloc, &[], &REDONE[..4])?;
    Ok(history)
}

/// Whether that history leads from a document of four characters, and from one of three.
fn leads(alloc: Global) -> Result<(bool, bool), Fail> {
    let history = moved(alloc)?;
    Ok((history.leads_from(4), history.leads_from(3)))
}

/// The numbers of Changes after an insertion into another document, with that history.
fn depth_elsewhere(alloc: Global, characters: &[char]) -> Result<(usize, usize), Fail> {
    let scene = Scene {
        history: moved(alloc)?,
        document: text(alloc, characters)?,
        selected: (0, 0),
        told: None,
    };
    let next = acted(alloc, &scene, Act::Insert(0, 'c'), Twist::None, 150)?;
    Ok(next.history.depth())
}

#[test]
fn a_history_of_another_document_counts_as_empty(rt: HostRuntime) -> Result<(), Fail> {
    assert!(rt; leads(rt.alloc())? == (true, false));
    assert!(rt; depth_elsewhere(rt.alloc(), &['x'])? == (1, 0));
    Ok(())
}

/// The numbers of Changes, of items and of characters after so many insertions at the start, each a group, which the selection
/// leaves or not, and as many undos, where so many Changes are kept.
fn counts_after(
    alloc: Global,
    count: u32,
    leaves: bool,
    depth: i64,
) -> Result<((usize, usize), (usize, usize), u32), Fail> {
    let mut scene = played(alloc, &[], &[])?;
    let mut time: i64 = 0;
    for _ in 0..count {
        scene = acted(
            alloc,
            &scene,
            Act::Insert(0, 'a'),
            Twist::Depth(depth),
            time,
        )?;
        if leaves {
            scene = acted(alloc, &scene, Act::Select(0, 0), Twist::Depth(depth), time)?;
        }
        time = time.saturating_add(1000);
    }
    for _ in 0..count {
        scene = acted(alloc, &scene, Act::Undo, Twist::Depth(depth), time)?;
    }
    Ok((
        scene.history.depth(),
        scene.history.items(),
        scene.document.len(),
    ))
}

#[test]
fn many_steps_are_undone(rt: HostRuntime) -> Result<(), Fail> {
    for (count, leaves, depth, items, left) in &[
        (2_000, false, 1_000_000, (0, 2_000), 0),
        (30, false, 3, (0, 3), 27),
        (30, true, 3, (1, 3), 27),
    ] {
        let counts = counts_after(rt.alloc(), *count, *leaves, *depth)?;
        assert!(rt; counts == ((0, items.1), *items, *left));
    }
    Ok(())
}

/// A document of one character into which so many were put at the start, each a group, where so many Changes are kept; with the
/// time of the next step.
fn grouped(alloc: Global, count: u32, depth: i64) -> Result<(Scene, i64), Fail> {
    let mut scene = played(alloc, &['x'], &[])?;
    let mut time: i64 = 0;
    for _ in 0..count {
        scene = acted(
            alloc,
            &scene,
            Act::Insert(0, 'a'),
            Twist::Depth(depth),
            time,
        )?;
        time = time.saturating_add(1000);
    }
    Ok((scene, time))
}

/// The scene after so many undos, where three Changes are kept.
fn undone(alloc: Global, scene: Scene, count: u32, time: i64) -> Result<Scene, Fail> {
    let mut scene = scene;
    for _ in 0..count {
        scene = acted(alloc, &scene, Act::Undo, Twist::Depth(3), time)?;
    }
    Ok(scene)
}

/// The numbers of Changes and of characters after so many groups of which three are kept, two characters that make one group, and
/// so many undos.
fn joined_after(alloc: Global, count: u32, undos: u32) -> Result<((usize, usize), u32), Fail> {
    let three = Twist::Depth(3);
    let (scene, time) = grouped(alloc, count, 3)?;
    let scene = acted(alloc, &scene, Act::Insert(0, 'b'), three, time)?;
    let scene = acted(alloc, &scene, Act::Insert(0, 'c'), three, time)?;
    let scene = undone(alloc, scene, undos, time)?;
    Ok((scene.history.depth(), scene.document.len()))
}

#[test]
fn a_change_joins_the_newest_of_a_cut_list(rt: HostRuntime) -> Result<(), Fail> {
    for count in 3..40 {
        assert!(rt;
            joined_after(rt.alloc(), count, 1)? == ((2, 1), count + 1),
            "{count}"
        );
        assert!(rt;
            joined_after(rt.alloc(), count, 4)? == ((0, 3), count - 1),
            "{count}"
        );
    }
    Ok(())
}

/// The numbers of Changes and of characters after so many groups of which three are kept, a character that is not recorded, and an
/// undo.
fn unrecorded_after(alloc: Global, count: u32) -> Result<((usize, usize), u32), Fail> {
    let (scene, time) = grouped(alloc, count, 3)?;
    let scene = acted(alloc, &scene, Act::Insert(0, 'u'), Twist::Unrecorded, time)?;
    let scene = undone(alloc, scene, 1, time)?;
    Ok((scene.history.depth(), scene.document.len()))
}

#[test]
fn a_cut_list_is_moved_over_what_is_not_recorded(rt: HostRuntime) -> Result<(), Fail> {
    for count in 3..40 {
        assert!(rt;
            unrecorded_after(rt.alloc(), count)? == ((2, 1), count + 1),
            "{count}"
        );
    }
    Ok(())
}

/// The numbers of items after so many groups of which so many are kept and a step that keeps none, and those of Changes after two
/// more groups and an undo.
fn begun_again(
    alloc: Global,
    count: u32,
    depth: i64,
) -> Result<((usize, usize), (usize, usize)), Fail> {
    let (scene, time) = grouped(alloc, count, depth)?;
    let none = acted(alloc, &scene, Act::Nothing, Twist::Depth(0), time)?;
    let items = none.history.items();
    let three = Twist::Depth(3);
    let scene = acted(alloc, &none, Act::Insert(0, 'b'), three, time)?;
    let time = time.saturating_add(1000);
    let scene = acted(alloc, &scene, Act::Insert(0, 'c'), three, time)?;
    let scene = undone(alloc, scene, 1, time)?;
    Ok((items, scene.history.depth()))
}

#[test]
fn a_list_is_cut_off_whole_and_begun_again(rt: HostRuntime) -> Result<(), Fail> {
    for (count, depth) in &[(2_000, 1_000_000), (60, 10), (51, 10), (52, 10)] {
        assert!(rt;
            begun_again(rt.alloc(), *count, *depth)? == ((0, 0), (1, 1)),
            "{count}, {depth}"
        );
    }
    Ok(())
}

/// The numbers of items after so many groups of which three are kept and so many selections, each another one than the last, and
/// after the newest of these is undone.
fn selected_after(
    alloc: Global,
    count: u32,
    selections: u32,
) -> Result<((usize, usize), (usize, usize)), Fail> {
    let three = Twist::Depth(3);
    let (mut scene, time) = grouped(alloc, count, 3)?;
    for number in 0..selections {
        let act = if number % 2 == 0 {
            Act::Select(0, 1)
        } else {
            Act::Select(1, 0)
        };
        scene = acted(alloc, &scene, act, three, time)?;
    }
    let before = acted(alloc, &scene, Act::UndoSelection, three, time)?;
    Ok((scene.history.items(), before.history.items()))
}

#[test]
fn the_oldest_of_many_selections_go(rt: HostRuntime) -> Result<(), Fail> {
    for (count, selections, items) in &[
        (0, 200, 200),
        (0, 201, 200),
        (0, 203, 200),
        (1, 200, 201),
        (1, 201, 201),
        (20, 202, 203),
    ] {
        assert!(rt;
            selected_after(rt.alloc(), *count, *selections)? == ((*items, 0), (*items - 1, 1)),
            "{count}, {selections}"
        );
    }
    Ok(())
}

/// Five characters that are typed with a selection after each but the last, and then an act four times, where two Changes are
/// kept.
fn typed_and(act: Act) -> [(Act, Twist); 13] {
    let two = Twist::Depth(2);
    let away = (Act::Select(0, 0), two);
    [
        (Act::Insert(0, 'a'), two),
        away,
        (Act::Insert(1, 'b'), two),
        away,
        (Act::Insert(2, 'c'), two),
        away,
        (Act::Insert(3, 'd'), two),
        away,
        (Act::Insert(4, 'e'), two),
        (act, two),
        (act, two),
        (act, two),
        (act, two),
    ]
}

/// Whether acts from a document without characters lead to so many items, each that can be undone and that can be done again, to
/// a selection and to a document.
fn keep(
    acts: &[(Act, Twist)],
    alloc: Global,
    items: (usize, usize),
    selected: (u32, u32),
    document: &[char],
) -> Result<bool, Fail> {
    let scene = played(alloc, &[], acts)?;
    Ok(
        scene.history.items() == items
            && scene.selected == selected
            && is_spelled(&scene.document, document)?,
    )
}

const TYPED: [char; 5] = ['a', 'b', 'c', 'd', 'e'];

#[test]
fn changes_are_cut_off_with_what_is_older(rt: HostRuntime) -> Result<(), Fail> {
    let acts = typed_and(Act::Undo);
    for (count, items, selected, typed) in &[
        (3, (3, 0), (2, 2), 2),
        (4, (4, 0), (0, 0), 2),
        (5, (4, 0), (3, 3), 3),
        (6, (5, 0), (0, 0), 3),
        (7, (4, 0), (4, 4), 4),
        (9, (4, 0), (5, 5), 5),
        (10, (3, 1), (0, 0), 4),
        (11, (1, 2), (0, 0), 3),
        (12, (1, 2), (0, 0), 3),
    ] {
        assert!(rt;
            keep(
                &acts[..*count],
                rt.alloc(),
                *items,
                *selected,
                &TYPED[..*typed]
            )?,
            "{count}"
        );
    }
    Ok(())
}

#[test]
fn each_item_that_is_kept_is_undone(rt: HostRuntime) -> Result<(), Fail> {
    let acts = typed_and(Act::UndoSelection);
    for (count, items, selected, typed) in &[
        (10, (3, 1), (0, 0), 4),
        (11, (2, 2), (4, 4), 4),
        (12, (1, 3), (0, 0), 3),
        (13, (0, 4), (3, 3), 3),
    ] {
        assert!(rt;
            keep(
                &acts[..*count],
                rt.alloc(),
                *items,
                *selected,
                &TYPED[..*typed]
            )?,
            "{count}"
        );
    }
    Ok(())
}

/// Whether a copy of that history is the same, and the history without items another.
fn is_copied(alloc: Global) -> Result<bool, Fail> {
    let history = moved(alloc)?;
    let copy = history.try_copy()?;
    Ok(history.same(&copy) && !history.same(&History::empty(alloc)?))
}

#[test]
fn a_copy_is_the_same(rt: HostRuntime) -> Result<(), Fail> {
    assert!(rt; is_copied(rt.alloc())?);
    Ok(())
}
