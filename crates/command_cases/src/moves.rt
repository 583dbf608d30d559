use cursor_moves::{Move, moved};
use line_tree::{MAX_LEN, Text, cut_len};
use std::alloc::{AllocError, Global};
use std::test::Fail;

pub(crate) fn text(alloc: Global, characters: &[char]) -> Result<Text, AllocError> {
    if cut_len(characters) > MAX_LEN as usize {
        return Err(AllocError);
    }
    Text::of(alloc, characters)
}

/// Where a move goes from a place of a text.
fn moved_in(
    alloc: Global,
    characters: &[char],
    direction: Move,
    place: u32,
) -> Result<Option<u32>, AllocError> {
    let text = text(alloc, characters)?;
    if place > text.len() {
        return Ok(None);
    }
    Ok(Some(moved(&text, direction, place)?))
}

#[test]
fn moves_go_over_clusters_and_breaks(rt: HostRuntime) -> Result<(), Fail> {
    // e with an acute accent, a break, two regional indicators, x
    let characters = ['e', '\u{301}', '\n', '\u{1F1E9}', '\u{1F1EA}', 'x'];
    for (direction, place, to) in &[
        (Move::Left, 0, 0),
        (Move::Left, 1, 0),
        (Move::Left, 2, 0),
        (Move::Left, 3, 2),
        (Move::Left, 4, 3),
        (Move::Left, 5, 3),
        (Move::Left, 6, 5),
        (Move::Right, 0, 2),
        (Move::Right, 1, 2),
        (Move::Right, 2, 3),
        (Move::Right, 3, 5),
        (Move::Right, 4, 5),
        (Move::Right, 5, 6),
        (Move::Right, 6, 6),
    ] {
        assert!(rt;
            moved_in(rt.alloc(), &characters, *direction, *place)? == Some(*to),
            "{place}"
        );
    }
    Ok(())
}

#[test]
fn moves_go_to_other_lines(rt: HostRuntime) -> Result<(), Fail> {
    // "abc", "e" with an acute accent, "", "defg"
    let characters = [
        'a', 'b', 'c', '\n', 'e', '\u{301}', '\n', '\n', 'd', 'e', 'f', 'g',
    ];
    for (direction, place, to) in &[
        (Move::Up, 0, 0),
        (Move::Up, 2, 0),
        (Move::Up, 4, 0),
        (Move::Up, 5, 1),
        (Move::Up, 6, 2),
        (Move::Up, 7, 4),
        (Move::Up, 12, 7),
        (Move::Down, 0, 4),
        (Move::Down, 1, 4),
        (Move::Down, 2, 6),
        (Move::Down, 3, 6),
        (Move::Down, 5, 7),
        (Move::Down, 7, 8),
        (Move::Down, 9, 12),
    ] {
        assert!(rt;
            moved_in(rt.alloc(), &characters, *direction, *place)? == Some(*to),
            "{place}"
        );
    }
    Ok(())
}

#[test]
fn moves_go_to_ends(rt: HostRuntime) -> Result<(), Fail> {
    let characters = ['a', 'b', '\n', 'c', 'd', '\n'];
    for (direction, place, to) in &[
        (Move::LineStart, 4, 3),
        (Move::LineStart, 6, 6),
        (Move::LineEnd, 0, 2),
        (Move::LineEnd, 2, 2),
        (Move::LineEnd, 3, 5),
        (Move::DocStart, 4, 0),
        (Move::DocEnd, 0, 6),
    ] {
        assert!(rt;
            moved_in(rt.alloc(), &characters, *direction, *place)? == Some(*to),
            "{place}"
        );
    }
    Ok(())
}
