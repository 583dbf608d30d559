use crate::numbered::{Numbered, Row, described, ranges_of, shows};
use change_desc::{Desc, Section};
use range_set::{RangeError, RangeSet};
use std::alloc::Global;
use std::test::*;

/// Why a list of ranges makes no set, where it is added to none.
fn refusal_of(alloc: Global, rows: &[Row]) -> Result<Option<RangeError>, Fail> {
    let ranges = ranges_of(alloc, rows)?;
    Ok(RangeSet::of(ranges).err())
}

/// The same of an update of the set without ranges.
fn update_refusal_of(alloc: Global, rows: &[Row]) -> Result<Option<RangeError>, Fail> {
    let ranges = ranges_of(alloc, rows)?;
    let none: RangeSet<Numbered> = RangeSet::empty(alloc);
    Ok(none.update(ranges, |_range| true).err())
}

/// Whether the set of some ranges, mapped over changes that start in a text that holds it, has other ranges.
fn maps_to(
    alloc: Global,
    rows: &[Row],
    sections: &[Section<u32>],
    want: &[(u32, u32, u32)],
) -> Result<bool, Fail> {
    let set = RangeSet::of(ranges_of(alloc, rows)?)?;
    let changes = described(alloc, sections)?;
    mapped_shows(&set, &changes, want)
}

fn mapped_shows(
    set: &RangeSet<Numbered>,
    changes: &Desc,
    want: &[(u32, u32, u32)],
) -> Result<bool, Fail> {
    if !set.ends_within(changes.len()) {
        return Ok(false);
    }
    let new = set.map(changes)?;
    Ok(shows(&new, want) && new.ends_within(changes.new_len()))
}

#[test]
fn points_are_sorted_anew(rt: HostRuntime) -> Result<(), Fail> {
    let points = [(2, 2, 1, 1, 1), (3, 3, 1, 1, 2), (4, 4, -1, -1, 3)];
    let deletion = [Section::Keep(2), Section::Replace(2, 0), Section::Keep(1)];
    let want = [(2, 2, 3), (2, 2, 1)];
    assert!(rt; maps_to(rt.alloc(), &points, &deletion, &want)?);
    Ok(())
}

#[test]
fn only_an_inclusive_span_may_become_empty(rt: HostRuntime) -> Result<(), Fail> {
    let deletion = [Section::Keep(1), Section::Replace(4, 0), Section::Keep(1)];
    assert!(rt; maps_to(rt.alloc(), &[(2, 4, -5, 5, 1)], &deletion, &[(1, 1, 1)])?);
    assert!(rt; maps_to(rt.alloc(), &[(2, 4, 5, -5, 1)], &deletion, &[])?);
    Ok(())
}

#[test]
fn ranges_beside_a_change_are_moved(rt: HostRuntime) -> Result<(), Fail> {
    let rows = [
        (0, 4, 0, 0, 1),
        (6, 6, 1, -1, 2),
        (6, 8, 1, 2, 3),
        (10, 20, 0, 0, 4),
        (24, 30, 0, 0, 5),
        (33, 36, 0, 0, 6),
    ];
    let sections = [
        Section::Keep(8),
        Section::Replace(0, 5),
        Section::Keep(17),
        Section::Replace(3, 0),
        Section::Keep(12),
    ];
    let want = [(0, 4, 1), (6, 13, 3), (15, 25, 4), (29, 32, 5), (35, 38, 6)];
    assert!(rt; maps_to(rt.alloc(), &rows, &sections, &want)?);
    Ok(())
}

#[test]
fn the_first_fault_is_told(rt: HostRuntime) -> Result<(), Fail> {
    let unsorted = [(1, 1, 0, 0, 1), (0, 1, 0, 0, 2), (3, 2, 0, 0, 3)];
    let both = [(5, 5, 0, 0, 1), (4, 3, 0, 0, 2)];
    let sides = [(5, 5, 1, 1, 1), (5, 6, 0, 0, 2)];
    assert!(rt; refusal_of(rt.alloc(), &unsorted)? == Some(RangeError::NotSorted { index: 1 }));
    assert!(rt; refusal_of(rt.alloc(), &both)? == Some(RangeError::Reversed { index: 1 }));
    assert!(rt; refusal_of(rt.alloc(), &sides)? == Some(RangeError::NotSorted { index: 1 }));
    let reversed = [(2, 1, 0, 0, 1)];
    assert!(rt;
        update_refusal_of(rt.alloc(), &reversed)? == Some(RangeError::Reversed { index: 0 })
    );
    Ok(())
}

/// The set of some ranges without those that end at 9, and with two others.
fn updated(alloc: Global) -> Result<RangeSet<Numbered>, Fail> {
    let old = [(0, 3, 0, 0, 1), (2, 2, 0, 0, 2), (5, 9, 0, 0, 3)];
    let add = [(0, 1, 0, 0, 4), (2, 4, 0, 0, 5)];
    let set = RangeSet::of(ranges_of(alloc, &old)?)?;
    Ok(set.update(ranges_of(alloc, &add)?, |range| range.to != 9)?)
}

#[test]
fn ranges_are_kept_and_added(rt: HostRuntime) -> Result<(), Fail> {
    let set = updated(rt.alloc())?;
    assert!(rt; shows(&set, &[(0, 3, 1), (0, 1, 4), (2, 2, 2), (2, 4, 5)]));
    Ok(())
}

/// Ranges with others added to them, where one ties with an old range and one is before it by its side.
fn added(alloc: Global) -> Result<RangeSet<Numbered>, Fail> {
    let set = RangeSet::of(ranges_of(alloc, &[(1, 2, 0, 0, 1), (3, 3, 0, 0, 2)])?)?;
    let add = ranges_of(alloc, &[(0, 9, 0, 0, 3), (3, 3, -1, 0, 4), (3, 5, 0, 0, 5)])?;
    Ok(set.with_added(add)?)
}

/// Why ranges are not added to a set of one.
fn added_refusal_of(alloc: Global, rows: &[Row]) -> Result<Option<RangeError>, Fail> {
    let set = RangeSet::of(ranges_of(alloc, &[(1, 2, 0, 0, 1)])?)?;
    Ok(set.with_added(ranges_of(alloc, rows)?).err())
}

#[test]
fn ranges_are_added(rt: HostRuntime) -> Result<(), Fail> {
    let set = added(rt.alloc())?;
    assert!(rt;
        shows(
            &set,
            &[(0, 9, 3), (1, 2, 1), (3, 3, 4), (3, 3, 2), (3, 5, 5)]
        )
    );
    let reversed = added_refusal_of(rt.alloc(), &[(0, 1, 0, 0, 2), (3, 2, 0, 0, 3)])?;
    assert!(rt; reversed == Some(RangeError::Reversed { index: 1 }));
    let unsorted = added_refusal_of(rt.alloc(), &[(4, 4, 0, 0, 2), (3, 3, 0, 0, 3)])?;
    assert!(rt; unsorted == Some(RangeError::NotSorted { index: 1 }));
    Ok(())
}

/// Whether a set is equal to its copy, and not to the set without ranges.
fn is_its_copy(alloc: Global, set: &RangeSet<Numbered>) -> Result<bool, Fail> {
    let copy = set.try_copy()?;
    Ok(copy.same(set) && !copy.same(&RangeSet::empty(alloc)))
}

/// Whether the ranges of a set from 3 to 8 have these numbers.
fn finds(set: &RangeSet<Numbered>, numbers: &[u32]) -> bool {
    let mut found = set.between(3, 8);
    for number in numbers {
        match found.next() {
            Some(range) => {
                if range.value.number != *number {
                    return false;
                }
            }
            None => return false,
        }
    }
    found.next().is_none()
}

#[test]
fn ranges_are_found_and_copied(rt: HostRuntime) -> Result<(), Fail> {
    let set = updated(rt.alloc())?;
    assert!(rt; finds(&set, &[1, 5]));
    assert!(rt; is_its_copy(rt.alloc(), &set)?);
    Ok(())
}
