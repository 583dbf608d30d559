//! How texts are cut into lines.
use crate::made::{is, text};
use line_tree::{Line, Text};
use std::alloc::{AllocError, Global};
use std::test::Fail;

fn cuts_to(alloc: Global, given: &[char], want: &[char]) -> Result<bool, AllocError> {
    is(&text(alloc, given)?, want)
}

#[test]
fn texts_are_cut_at_each_break(rt: HostRuntime) -> Result<(), Fail> {
    let given = ['a', '\r', '\n', '\r', 'b', '\n', '漢', '\n', '\r'];
    let want = ['a', '\n', '\n', 'b', '\n', '漢', '\n', '\n'];
    assert!(rt; cuts_to(rt.alloc(), &given, &want)?);
    assert!(rt; cuts_to(rt.alloc(), &['\r', '\n'], &['\n'])?);
    assert!(rt; cuts_to(rt.alloc(), &['\r', '\r'], &['\n', '\n'])?);
    Ok(())
}

#[test]
fn the_empty_text_has_one_line(rt: HostRuntime) -> Result<(), Fail> {
    let empty = Text::empty(rt.alloc())?;
    assert!(rt; empty.len() == 0);
    assert!(rt; empty.lines() == 1);
    Ok(())
}

/// The line of this number, and the one that a place stands in, of a text of five characters in three lines.
fn line(alloc: Global, number: u64) -> Result<Option<Line>, AllocError> {
    let text = text(alloc, &['a', 'b', '\n', '\n', 'c'])?;
    if number == 0 || number > text.lines() {
        return Ok(None);
    }
    Ok(Some(text.line(number)))
}

fn line_at(alloc: Global, pos: u32) -> Result<Option<Line>, AllocError> {
    let text = text(alloc, &['a', 'b', '\n', '\n', 'c'])?;
    if pos > text.len() {
        return Ok(None);
    }
    Ok(Some(text.line_at(pos)))
}

const FIRST: Line = Line {
    number: 1,
    from: 0,
    to: 2,
};

const SECOND: Line = Line {
    number: 2,
    from: 3,
    to: 3,
};

const THIRD: Line = Line {
    number: 3,
    from: 4,
    to: 5,
};

#[test]
fn lines_are_found_by_number(rt: HostRuntime) -> Result<(), Fail> {
    for (number, want) in [
        (1, Some(FIRST)),
        (2, Some(SECOND)),
        (3, Some(THIRD)),
        (4, None),
    ] {
        assert!(rt; line(rt.alloc(), number)? == want, "{number}");
    }
    Ok(())
}

#[test]
fn lines_are_found_by_place(rt: HostRuntime) -> Result<(), Fail> {
    for (pos, want) in [(0, FIRST), (2, FIRST), (3, SECOND), (4, THIRD), (5, THIRD)] {
        assert!(rt; line_at(rt.alloc(), pos)? == Some(want), "{pos}");
    }
    Ok(())
}
