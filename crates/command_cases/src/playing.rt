use crate::player::{Act, Player, acted, scene_of, sent, started};
use commands::Move;
use std::alloc::{AllocError, Global};
use std::test::Fail;

/// Whether a player's document has these characters.
fn is_spelled(player: &Player, characters: &[char]) -> Result<bool, AllocError> {
    let shown = player.document.chars()?;
    Ok(shown.as_slice() == characters)
}

/// The ends of the main range.
fn selected(player: &Player) -> (u32, u32) {
    let main = player.selection.main();
    (main.anchor, main.head)
}

/// Whether a player's document has these characters, and its main range these ends.
fn is(player: &Player, characters: &[char], ends: (u32, u32)) -> Result<bool, AllocError> {
    Ok(selected(player) == ends && is_spelled(player, characters)?)
}

/// The player after acts, of which those that do nothing are passed over; a hundred milliseconds lie between each two.
fn played(alloc: Global, mut player: Player, acts: &[Act]) -> Result<Player, Fail> {
    let mut time = 0;
    for act in acts {
        if let Some(next) = acted(alloc, &player, *act, time)? {
            player = next;
        }
        if time < 100000 {
            time += 100;
        }
    }
    Ok(player)
}

/// Whether acts from a document with a selection lead to a document and its main range.
fn lead_to(
    alloc: Global,
    start: (&[char], (u32, u32)),
    acts: &[Act],
    end: (&[char], (u32, u32)),
) -> Result<bool, Fail> {
    let player = played(alloc, started(alloc, start.0, start.1)?, acts)?;
    Ok(is(&player, end.0, end.1)?)
}

/// Whether an act in a document with a selection does anything.
fn does(
    alloc: Global,
    start: (&[char], (u32, u32)),
    act: Act,
    read_only: bool,
) -> Result<bool, AllocError> {
    let player = started(alloc, start.0, start.1)?;
    let spec = sent(alloc, &scene_of(&player, read_only, 0), act)?;
    Ok(spec.is_some())
}

const A_B: [char; 2] = ['a', 'b'];

#[test]
fn commands_that_do_nothing(rt: HostRuntime) -> Result<(), Fail> {
    for (ends, act, read_only, done) in &[
        ((0, 0), Act::DeleteBack, false, false),
        ((0, 0), Act::DeleteForward, false, true),
        ((0, 0), Act::DeleteForward, true, false),
        ((2, 2), Act::DeleteForward, false, false),
        ((0, 2), Act::DeleteBack, false, true),
        ((0, 0), Act::Move(Move::DocStart), false, false),
        ((0, 0), Act::Move(Move::Left), false, false),
        ((0, 1), Act::Move(Move::Left), false, true),
        ((0, 0), Act::Move(Move::Right), true, true),
        ((0, 0), Act::SelectAll, true, true),
        ((0, 2), Act::SelectAll, false, false),
        ((2, 0), Act::SelectAll, false, true),
        ((0, 0), Act::Insert(&[]), false, true),
        ((0, 0), Act::Insert(&[]), true, false),
        ((0, 0), Act::Newline, false, true),
        ((0, 0), Act::Newline, true, false),
        ((0, 0), Act::Undo, false, false),
        ((0, 0), Act::Redo, false, false),
        ((0, 0), Act::UndoSelection, false, false),
        ((0, 0), Act::RedoSelection, false, false),
    ] {
        assert!(rt; does(rt.alloc(), (&A_B, *ends), *act, *read_only)? == *done);
    }
    Ok(())
}

#[test]
fn text_is_put_in_and_deleted(rt: HostRuntime) -> Result<(), Fail> {
    let acute = ['a', 'e', '\u{301}', 'b'];
    for (ends, act, shown, end) in &[
        (
            (1, 3),
            Act::Insert(&['x', 'y']),
            ['a', 'x', 'y', 'b'].as_slice(),
            (3, 3),
        ),
        ((3, 3), Act::DeleteBack, ['a', 'b'].as_slice(), (1, 1)),
        (
            (2, 2),
            Act::DeleteBack,
            ['a', '\u{301}', 'b'].as_slice(),
            (1, 1),
        ),
        ((1, 1), Act::DeleteForward, ['a', 'b'].as_slice(), (1, 1)),
        ((3, 1), Act::DeleteForward, ['a', 'b'].as_slice(), (1, 1)),
        ((1, 3), Act::Newline, ['a', '\n', 'b'].as_slice(), (2, 2)),
    ] {
        assert!(rt; lead_to(rt.alloc(), (&acute, *ends), &[*act], (*shown, *end))?);
    }
    Ok(())
}

#[test]
fn moves_extend_or_collapse(rt: HostRuntime) -> Result<(), Fail> {
    let lines = ['a', 'b', '\n', 'c'];
    for (ends, act, end) in &[
        ((0, 2), Act::Move(Move::Left), (0, 0)),
        ((2, 0), Act::Move(Move::Right), (2, 2)),
        ((0, 2), Act::Extend(Move::Left), (0, 1)),
        ((2, 2), Act::Extend(Move::Right), (2, 3)),
        ((0, 2), Act::Move(Move::Down), (4, 4)),
        ((3, 4), Act::Extend(Move::Up), (3, 1)),
        ((1, 1), Act::SelectAll, (0, 4)),
        ((1, 2), Act::Move(Move::LineStart), (0, 0)),
    ] {
        assert!(rt; lead_to(rt.alloc(), (&lines, *ends), &[*act], (&lines, *end))?);
    }
    Ok(())
}

#[test]
fn undo_goes_past_an_unrelated_insert(rt: HostRuntime) -> Result<(), Fail> {
    let acts = [
        Act::Insert(&['a']),
        Act::Insert(&['b']),
        Act::Unrecorded(0, 'z'),
        Act::Undo,
        Act::Redo,
    ];
    for (count, shown, end) in &[
        (3, ['z', 'a', 'b'].as_slice(), (3, 3)),
        (4, ['z'].as_slice(), (0, 0)),
        (5, ['z', 'a', 'b'].as_slice(), (3, 3)),
    ] {
        let done = &acts[..(*count).min(acts.len())];
        assert!(rt;
            lead_to(rt.alloc(), (&[], (0, 0)), done, (*shown, *end))?,
            "{count}"
        );
    }
    Ok(())
}

#[test]
fn selections_are_undone_and_done_again(rt: HostRuntime) -> Result<(), Fail> {
    let acts = [
        Act::Select(2, 2),
        Act::Insert(&['c']),
        Act::Select(0, 1),
        Act::UndoSelection,
        Act::UndoSelection,
        Act::UndoSelection,
        Act::UndoSelection,
        Act::RedoSelection,
        Act::RedoSelection,
    ];
    let longer = ['a', 'b', 'c'];
    for (count, shown, end) in &[
        (4, longer.as_slice(), (3, 3)),
        (5, A_B.as_slice(), (2, 2)),
        (6, A_B.as_slice(), (0, 0)),
        (7, A_B.as_slice(), (0, 0)),
        (8, A_B.as_slice(), (2, 2)),
        (9, longer.as_slice(), (3, 3)),
    ] {
        let done = &acts[..(*count).min(acts.len())];
        assert!(rt;
            lead_to(rt.alloc(), (&A_B, (0, 0)), done, (*shown, *end))?,
            "{count}"
        );
    }
    Ok(())
}
