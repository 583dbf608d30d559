use crate::player::{Act, Player, note, scene_of, sent, started};
use cm_plain::Plain;
use commands::EditScene;
use selection::{Range, Selection};
use std::alloc::{AllocError, Global};
use std::test::Fail;
use transaction::Spec;
use values::Val;

/// The user event of a spec, letter by letter.
fn is_event(spec: &Spec<Val>, event: &str) -> Result<bool, AllocError> {
    match &spec.user_event {
        None => Ok(false),
        Some(given) => {
            let text = given.text()?;
            Ok(text.as_str() == event)
        }
    }
}

/// Whether what an act sends has a user event, is filtered as said, and tells its time.
fn tells(
    alloc: Global,
    player: &Player,
    act: Act,
    event: &str,
    filter: bool,
) -> Result<bool, AllocError> {
    match sent(alloc, &scene_of(player, false, 7), act)? {
        None => Ok(false),
        Some(spec) => {
            let timed = matches!(note(&spec, "time"), Some(Plain::Int(7)));
            Ok(timed && spec.filter == filter && !spec.sequential && is_event(&spec, event)?)
        }
    }
}

#[test]
fn specs_have_events_and_times(rt: HostRuntime) -> Result<(), Fail> {
    let player = started(rt.alloc(), &['a', 'b'], (1, 1))?;
    for (act, event) in &[
        (Act::Insert(&['x']), "input.type"),
        (Act::Newline, "input"),
        (Act::DeleteBack, "delete.backward"),
        (Act::DeleteForward, "delete.forward"),
        (Act::SelectAll, "select"),
    ] {
        assert!(rt; tells(rt.alloc(), &player, *act, event, true)?, "{event}");
    }
    Ok(())
}

/// An empty document with a selection that may say more than it has.
fn selecting(alloc: Global, ranges: &[Range]) -> Result<Player, Fail> {
    let mut player = started(alloc, &[], (0, 0))?;
    player.selection = Selection::create(alloc, ranges, 0)?;
    Ok(player)
}

/// A document and a selection alone.
fn bare(player: &Player) -> EditScene<'_> {
    EditScene {
        doc: &player.document,
        selection: &player.selection,
        read_only: false,
        history: None,
        time: None,
    }
}

/// The head of the first of two ranges of a spec, and the anchor of the second.
fn two_ranges(spec: &Spec<Val>) -> Option<(u32, u32)> {
    match &spec.selection {
        Some(given) => match given.ranges.as_slice() {
            [first, second] => Some((first.head, second.anchor)),
            _ => None,
        },
        None => None,
    }
}

/// The ranges that an insertion leaves of a selection of two ranges in an empty document.
fn left(
    alloc: Global,
    ranges: &[Range],
    characters: &'static [char],
) -> Result<Option<(u32, u32)>, Fail> {
    let player = selecting(alloc, ranges)?;
    match sent(alloc, &bare(&player), Act::Insert(characters))? {
        Some(spec) => Ok(two_ranges(&spec)),
        None => Ok(None),
    }
}

#[test]
fn a_cursor_stands_after_each_text(rt: HostRuntime) -> Result<(), Fail> {
    let near = [Range { anchor: 1, head: 3 }, Range { anchor: 5, head: 5 }];
    let touching = [Range { anchor: 0, head: 2 }, Range { anchor: 4, head: 2 }];
    let far = [
        Range { anchor: 1, head: 1 },
        Range {
            anchor: u32::MAX,
            head: u32::MAX,
        },
    ];
    for (ranges, text, cursors) in &[
        (&near, ['x'].as_slice(), (2, 5)),
        (&near, ['x', 'y', 'z'].as_slice(), (4, 9)),
        (&touching, ['x'].as_slice(), (1, 2)),
        (&far, ['x'].as_slice(), (2, u32::MAX)),
    ] {
        assert!(rt; left(rt.alloc(), *ranges, *text)? == Some(*cursors));
    }
    Ok(())
}
