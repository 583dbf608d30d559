use crate::numbered::described;
use change_desc::{Desc, Section};
use selection::{Range, Selection, SelectionError, first_outside};
use std::alloc::{AllocError, Global};
use std::test::*;

/// A selection as plain data: the ends of its ranges, and which of them is the main one.
fn is(selection: &Selection, ranges: &[(u32, u32)], main: usize) -> bool {
    if selection.ranges().len() != ranges.len() || selection.main_index() != main {
        return false;
    }
    for (range, (anchor, head)) in selection.ranges().iter().zip(ranges) {
        if range.anchor != *anchor || range.head != *head {
            return false;
        }
    }
    true
}

fn created(alloc: Global, rows: &[(u32, u32)], main: usize) -> Result<Selection, SelectionError> {
    let mut ranges = Vec::new(alloc);
    for (anchor, head) in rows {
        let range = Range {
            anchor: *anchor,
            head: *head,
        };
        ranges.push(range).map_err(AllocError::from)?;
    }
    Selection::create(alloc, &ranges, main)
}

#[test]
fn ranges_are_sorted_and_joined(rt: HostRuntime) -> Result<(), Fail> {
    let selection = created(rt.alloc(), &[(0, 1), (4, 4), (3, 4)], 1)?;
    assert!(rt; is(&selection, &[(0, 1), (3, 4)], 1));
    assert!(rt; selection.main() == Range { anchor: 3, head: 4 });
    Ok(())
}

#[test]
fn a_joined_range_points_as_the_later(rt: HostRuntime) -> Result<(), Fail> {
    let backward = created(rt.alloc(), &[(0, 3), (5, 2)], 0)?;
    assert!(rt; is(&backward, &[(5, 0)], 0));
    let touching = created(rt.alloc(), &[(2, 5), (0, 2)], 0)?;
    assert!(rt; is(&touching, &[(0, 2), (2, 5)], 1));
    Ok(())
}

/// Whether the selection of the main range alone has these ends.
fn single_is(selection: &Selection, anchor: u32, head: u32) -> Result<bool, AllocError> {
    let single = selection.as_single()?;
    Ok(is(&single, &[(anchor, head)], 0))
}

/// Whether a selection is the same as its copy.
fn is_its_copy(selection: &Selection) -> Result<bool, AllocError> {
    let copy = selection.try_copy()?;
    Ok(copy.same(selection))
}

#[test]
fn a_selection_is_copied_and_cut(rt: HostRuntime) -> Result<(), Fail> {
    let cases: [&[(u32, u32)]; 3] = [&[(3, 4)], &[(0, 1), (3, 4)], &[(0, 1), (3, 4), (6, 6)]];
    for ranges in cases {
        let selection = created(rt.alloc(), ranges, ranges.len() / 2)?;
        assert!(rt; single_is(&selection, 3, 4)?);
        assert!(rt; is_its_copy(&selection)?);
    }
    Ok(())
}

#[test]
fn ranges_are_refused(rt: HostRuntime) -> Result<(), Fail> {
    assert!(rt; created(rt.alloc(), &[], 0).err() == Some(SelectionError::NoRanges));
    assert!(rt;
        created(rt.alloc(), &[(0, 0)], 1).err()
            == Some(SelectionError::BadMain { main: 1, count: 1 })
    );
    Ok(())
}

/// Whether a selection of a text is mapped to ranges with these ends.
fn maps_to(
    selection: &Selection,
    changes: &Desc,
    ranges: &[(u32, u32)],
    main: usize,
) -> Result<bool, AllocError> {
    if first_outside(selection.ranges(), changes.len()).is_some() {
        return Ok(false);
    }
    let new = selection.map(changes)?;
    Ok(is(&new, ranges, main))
}

#[test]
fn a_cursor_stays_before_what_is_inserted(rt: HostRuntime) -> Result<(), Fail> {
    let changes = described(rt.alloc(), &[Section::Keep(2), Section::Replace(0, 3)])?;
    let cursor = Selection::single(rt.alloc(), 2, 2)?;
    assert!(rt; maps_to(&cursor, &changes, &[(2, 2)], 0)?);
    Ok(())
}

#[test]
fn several_ranges_move(rt: HostRuntime) -> Result<(), Fail> {
    let sections = [
        Section::Keep(1),
        Section::Replace(3, 0),
        Section::Keep(2),
        Section::Replace(0, 2),
        Section::Keep(4),
    ];
    let changes = described(rt.alloc(), &sections)?;
    let selection = created(rt.alloc(), &[(0, 2), (3, 5), (9, 6)], 2)?;
    assert!(rt; maps_to(&selection, &changes, &[(0, 1), (1, 2), (8, 5)], 2)?);
    Ok(())
}
