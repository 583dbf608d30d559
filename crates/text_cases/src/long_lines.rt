//! Lines of more characters than one chunk of pieces has, and of about as many as one piece has.
use crate::made::{is, replaced, taken, text};
use line_tree::Text;
use std::alloc::{AllocError, Global};
use std::test::Fail;

const LEN: usize = 200_000;

/// A line of 200,000 characters of which some in its second half were replaced.
fn changed(alloc: Global, to: u32, inserted: &[char]) -> Result<Text, AllocError> {
    let characters = vec![in alloc; 'x'; LEN]?;
    let line = text(alloc, &characters)?;
    replaced(&line, 150_000, to, &text(alloc, inserted)?)
}

fn changed_about(alloc: Global, to: u32, inserted: &[char]) -> Result<Text, AllocError> {
    let line = changed(alloc, to, inserted)?;
    taken(&line, 149_999, 150_003)
}

fn about(alloc: Global, to: u32, inserted: &[char], want: &[char]) -> Result<bool, AllocError> {
    is(&changed_about(alloc, to, inserted)?, want)
}

#[test]
fn a_long_line_is_changed_in_its_midst(rt: HostRuntime) -> Result<(), Fail> {
    assert!(rt; about(rt.alloc(), 150_001, &['y'], &['x', 'y', 'x', 'x'])?);
    assert!(rt; about(rt.alloc(), 150_001, &['y', '\n'], &['x', 'y', '\n', 'x'])?);
    assert!(rt; about(rt.alloc(), 190_000, &[], &['x', 'x', 'x', 'x'])?);
    Ok(())
}

#[test]
fn a_changed_long_line_has_its_length(rt: HostRuntime) -> Result<(), Fail> {
    let line = changed(rt.alloc(), 190_000, &['y', '\n'])?;
    assert!(rt; line.len() == 160_002);
    assert!(rt; line.lines() == 2);
    Ok(())
}

/// A line of so many times 'x'.
fn line(alloc: Global, len: usize) -> Result<Text, AllocError> {
    let characters = vec![in alloc; 'x'; len]?;
    text(alloc, &characters)
}

/// A line of so many times 'x', of which so many before and after a range are kept, with some characters in place of that range.
fn with_inserted(
    alloc: Global,
    len: usize,
    kept: (u32, u32),
    inserted: &[char],
) -> Result<Text, AllocError> {
    let line = line(alloc, len)?;
    let inserted = text(alloc, inserted)?;
    let to = line.len().saturating_sub(kept.1);
    replaced(&line, kept.0, to, &inserted)
}

/// So many times 'x', some characters and so many times 'x' again.
fn around(alloc: Global, kept: (u32, u32), inserted: &[char]) -> Result<Vec<char>, AllocError> {
    let mut characters = vec![in alloc; 'x'; kept.0 as usize]?;
    characters.extend_from_slice(inserted)?;
    let rest = vec![in alloc; 'x'; kept.1 as usize]?;
    characters.extend_from_slice(&rest)?;
    Ok(characters)
}

/// Whether a line then has these characters.
fn becomes(
    alloc: Global,
    len: usize,
    kept: (u32, u32),
    inserted: &[char],
) -> Result<bool, AllocError> {
    let line = with_inserted(alloc, len, kept, inserted)?;
    is(&line, &around(alloc, kept, inserted)?)
}

#[test]
fn a_long_line_becomes_a_short_one(rt: HostRuntime) -> Result<(), Fail> {
    assert!(rt; becomes(rt.alloc(), LEN, (1_000, 500), &['y'])?);
    assert!(rt; becomes(rt.alloc(), LEN, (0, 1), &[])?);
    Ok(())
}

#[test]
fn a_line_of_one_piece_grows(rt: HostRuntime) -> Result<(), Fail> {
    assert!(rt; becomes(rt.alloc(), 2_047, (1_000, 1_047), &['y'])?);
    assert!(rt; becomes(rt.alloc(), 2_047, (1_000, 1_047), &['y', 'z'])?);
    assert!(rt; becomes(rt.alloc(), 2_047, (0, 0), &['y'; 2_048])?);
    Ok(())
}
