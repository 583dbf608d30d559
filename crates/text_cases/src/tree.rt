//! Texts of some 4,096 breaks as trees.
use crate::made::{replaced, text};
use line_tree::{Line, Text};
use std::alloc::{AllocError, Global};
use std::test::Fail;

fn breaks(alloc: Global) -> Result<Text, AllocError> {
    text(alloc, &['\n'; 4096])
}

#[test]
fn a_text_of_breaks_is_a_low_tree(rt: HostRuntime) -> Result<(), Fail> {
    let text = breaks(rt.alloc())?;
    assert!(rt; text.len() == 4096);
    assert!(rt; text.lines() == 4097);
    assert!(rt; text.height() <= 12);
    Ok(())
}

fn line_at(text: &Text, pos: u32) -> Option<Line> {
    if pos > text.len() {
        return None;
    }
    Some(text.line_at(pos))
}

#[test]
fn a_line_is_found_in_the_tree(rt: HostRuntime) -> Result<(), Fail> {
    let want = Line {
        number: 2049,
        from: 2048,
        to: 2048,
    };
    assert!(rt; line_at(&breaks(rt.alloc())?, 2048) == Some(want));
    Ok(())
}

/// How many characters the first 1,000 runs of a text have, and how many of these runs are one character.
fn runs(text: &Text) -> (u32, u32) {
    let mut pos = 0;
    let mut single: u32 = 0;
    for _ in 0..1_000u32 {
        if pos >= text.len() {
            return (pos, single);
        }
        let len = text.run_at(pos).len() as u32;
        if len == 1 {
            single = single.wrapping_add(1);
        }
        pos = pos.saturating_add(len);
    }
    (pos, single)
}

/// Each leaf but the last has 64 lines and so 63 breaks in one run, and a break follows it.
#[test]
fn runs_end_with_leaves(rt: HostRuntime) -> Result<(), Fail> {
    assert!(rt; runs(&breaks(rt.alloc())?) == (4_096, 64));
    Ok(())
}

/// How many lines the leaves have that were met, and the most that one has.
#[derive(Clone, Copy)]
struct Leaves {
    lines: u64,
    most: u64,
}

/// Adds the parts of each text to a list, and the lines of those that have none to the leaves.
fn descend(texts: &[Text], leaves: Leaves, out: &mut Vec<Text>) -> Result<Leaves, AllocError> {
    let mut found = leaves;
    for text in texts {
        if text.parts().is_empty() {
            found = Leaves {
                lines: found.lines.saturating_add(text.lines()),
                most: found.most.max(text.lines()),
            };
        }
        for part in text.parts() {
            out.push(part.try_copy()?)?;
        }
    }
    Ok(found)
}

/// The leaves that are found through the parts, of a tree of at most 12 levels.
fn found_leaves(alloc: Global, text: &Text) -> Result<Leaves, AllocError> {
    let mut level = Vec::new(alloc);
    level.push(text.try_copy()?)?;
    let mut found = Leaves { lines: 0, most: 0 };
    for _ in 0..13 {
        let mut next = Vec::new(alloc);
        found = descend(level.as_slice(), found, &mut next)?;
        level = next;
    }
    Ok(found)
}

fn has_leaves(alloc: Global, text: &Text, lines: u64) -> Result<bool, AllocError> {
    let found = found_leaves(alloc, text)?;
    Ok(found.lines == lines && found.most <= 64)
}

/// The tree with breaks in its midst, up to a place, replaced by three characters.
fn changed(alloc: Global, to: u32) -> Result<Text, AllocError> {
    let inserted = text(alloc, &['a', '\n', 'b'])?;
    replaced(&breaks(alloc)?, 1000, to, &inserted)
}

#[test]
fn leaves_are_found_through_the_parts(rt: HostRuntime) -> Result<(), Fail> {
    assert!(rt; has_leaves(rt.alloc(), &breaks(rt.alloc())?, 4097)?);
    assert!(rt; has_leaves(rt.alloc(), &changed(rt.alloc(), 1010)?, 4088)?);
    assert!(rt; has_leaves(rt.alloc(), &changed(rt.alloc(), 1100)?, 3998)?);
    Ok(())
}

#[test]
fn a_change_reaches_a_few_lines(rt: HostRuntime) -> Result<(), Fail> {
    let text = changed(rt.alloc(), 1010)?;
    let want = Line {
        number: 1002,
        from: 1002,
        to: 1003,
    };
    assert!(rt; text.len() == 4089);
    assert!(rt; line_at(&text, 1002) == Some(want));
    Ok(())
}

/// The text of so many breaks, of 4,096 at most, with 63 more at a place.
fn grown(alloc: Global, count: usize, at: u32) -> Result<Text, AllocError> {
    let breaks = ['\n'; 4096];
    let old = text(alloc, &breaks[..count.min(4096)])?;
    replaced(&old, at, at, &text(alloc, &['\n'; 63])?)
}

/// Whether the leaves of that text have so many lines in all, and none too many.
fn has_grown(alloc: Global, count: usize, at: u32, lines: u64) -> Result<bool, AllocError> {
    has_leaves(alloc, &grown(alloc, count, at)?, lines)
}

#[test]
fn a_leaf_with_more_lines_than_it_may_have_becomes_two(rt: HostRuntime) -> Result<(), Fail> {
    assert!(rt; has_grown(rt.alloc(), 4096, 1000, 4160)?);
    assert!(rt; has_grown(rt.alloc(), 4095, 3000, 4159)?);
    Ok(())
}

/// How many parts the text of 3,839 breaks, which has eight parts of 6 leaves and a last one of 12, has once 63 breaks more
/// stand at a place.
fn parts_of_grown(alloc: Global, at: u32) -> Result<usize, AllocError> {
    Ok(grown(alloc, 3839, at)?.parts().len())
}

#[test]
fn a_branch_with_more_parts_than_it_may_have_becomes_two(rt: HostRuntime) -> Result<(), Fail> {
    assert!(rt; parts_of_grown(rt.alloc(), 1000)? == 9);
    assert!(rt; parts_of_grown(rt.alloc(), 3500)? == 10);
    Ok(())
}

/// A text of three lines of 100 characters each, with one character more at its start.
fn lengthened(alloc: Global) -> Result<Text, AllocError> {
    let mut characters = ['a'; 302];
    characters[100] = '\n';
    characters[201] = '\n';
    replaced(&text(alloc, &characters)?, 0, 0, &text(alloc, &['b'])?)
}

#[test]
fn an_edited_leaf_of_several_lines_and_many_characters_becomes_two(
    rt: HostRuntime,
) -> Result<(), Fail> {
    let text = lengthened(rt.alloc())?;
    assert!(rt; text.len() == 303);
    assert!(rt; text.lines() == 3);
    assert!(rt; text.parts().len() == 2);
    Ok(())
}
