// Groups of chunks of points that stand ten characters apart, most of which refuse to be copied. A chunk has 20 points, a group here
// 16 chunks at most: 4,000 points stand in 13 groups, 1,400 in four of 16 chunks and one of 6.
use crate::numbered::{Copied, Numbered, is_among, mapped};
use change_desc::Section;
use range_set::{Iter, RangeSet, Ranged};
use std::alloc::{AllocError, Global};
use std::test::*;

fn value(copied: &Copied, number: u32) -> Numbered {
    let most = if is_among(copied, number) {
        u32::MAX
    } else {
        0
    };
    Numbered {
        start: 1,
        end: 1,
        number,
        most,
        is_point: true,
    }
}

/// Points at 10, 20 and so on, numbered from 1.
fn points(alloc: Global, count: u32, copied: &Copied) -> Result<RangeSet<Numbered>, Fail> {
    let mut ranges = Vec::new(alloc);
    for index in 0..count {
        let number = index.wrapping_add(1);
        let place = number.wrapping_mul(10);
        ranges.push(Ranged {
            from: place,
            to: place,
            value: value(copied, number),
        })?;
    }
    Ok(RangeSet::of(ranges)?)
}

/// The points from one number to another, each so far after ten times its number, or before it.
type Row = (u32, u32, i64);

/// Whether the next points are those of a row.
fn row_stands(ranges: &mut Iter<'_, Numbered>, row: &Row) -> bool {
    let (first, last, by) = row;
    for number in *first..last.wrapping_add(1) {
        let want = i64::from(number).wrapping_mul(10).wrapping_add(*by);
        match ranges.next() {
            None => return false,
            Some(range) => {
                let place = i64::from(range.from);
                if place != want || range.to != range.from || range.value.number != number {
                    return false;
                }
            }
        }
    }
    true
}

fn rows_stand(set: &RangeSet<Numbered>, rows: &[Row]) -> bool {
    let mut ranges = set.iter();
    for row in rows {
        if !row_stands(&mut ranges, row) {
            return false;
        }
    }
    ranges.next().is_none()
}

/// So many points mapped over changes, one after another.
fn all_mapped(
    alloc: Global,
    count: u32,
    copied: &Copied,
    steps: &[&[Section<u32>]],
) -> Result<Option<RangeSet<Numbered>>, Fail> {
    let mut set = points(alloc, count, copied)?;
    for sections in steps {
        match mapped(alloc, &set, sections)? {
            Some(next) => set = next,
            None => return Ok(None),
        }
    }
    Ok(Some(set))
}

/// Whether the points so mapped are those of these rows: `None` where they can't be mapped, or out of memory.
fn stand_after(
    alloc: Global,
    count: u32,
    copied: &Copied,
    steps: &[&[Section<u32>]],
    rows: &[Row],
) -> Result<Option<bool>, Fail> {
    match all_mapped(alloc, count, copied, steps)? {
        Some(set) => Ok(Some(rows_stand(&set, rows))),
        None => Ok(None),
    }
}

#[test]
fn chunks_between_two_changes_are_shared(rt: HostRuntime) -> Result<(), Fail> {
    let step = [
        Section::Keep(105),
        Section::Replace(0, 3),
        Section::Keep(37_400),
        Section::Replace(0, 3),
        Section::Keep(2_500),
    ];
    let rows = [(1, 10, 0), (11, 3750, 3), (3751, 4000, 6)];
    let steps: [&[Section<u32>]; 1] = [&step];
    for (copied, want) in &[
        ([(1, 20), (3741, 3760)], Some(true)),
        ([(2, 20), (3741, 3760)], None),
        ([(1, 20), (3742, 3760)], None),
    ] {
        assert!(rt; stand_after(rt.alloc(), 4000, copied, &steps, &rows)? == *want);
    }
    Ok(())
}

#[test]
fn changes_far_apart_meet_two_groups(rt: HostRuntime) -> Result<(), Fail> {
    let step = [
        Section::Keep(11),
        Section::Replace(3, 0),
        Section::Keep(199_981),
        Section::Replace(0, 3),
        Section::Keep(5),
    ];
    let steps: [&[Section<u32>]; 1] = [&step];
    let rows = [(1, 1, 0), (2, 19_999, -3), (20_000, 20_000, 0)];
    let ends = [(1, 20), (19_981, 20_000)];
    assert!(rt; stand_after(rt.alloc(), 20_000, &ends, &steps, &rows)? == Some(true));
    Ok(())
}

/// The first group keeps its first chunk, of points 1 to 20, and then an insertion meets this: a run stands before a group of 16 chunks.
#[test]
fn a_run_is_put_before_a_shared_group(rt: HostRuntime) -> Result<(), Fail> {
    let less = [
        Section::Keep(205),
        Section::Replace(3_000, 0),
        Section::Keep(10_895),
    ];
    let more = [
        Section::Keep(105),
        Section::Replace(0, 3),
        Section::Keep(10_995),
    ];
    let steps: [&[Section<u32>]; 2] = [&less, &more];
    let rows = [(1, 10, 0), (11, 20, 3), (321, 1400, -2_997)];
    assert!(rt; stand_after(rt.alloc(), 1400, &[(1, 20), (0, 0)], &steps, &rows)? == Some(true));
    Ok(())
}

/// The fourth group keeps its first 7 chunks, of points 961 to 1100, too many to become one with the 6 of the last, and then
/// insertions meet the last of the 7 and the first of the 6.
#[test]
fn chunks_of_two_small_groups_are_mapped(rt: HostRuntime) -> Result<(), Fail> {
    let less = [
        Section::Keep(11_005),
        Section::Replace(1_800, 0),
        Section::Keep(1_295),
    ];
    let more = [
        Section::Keep(10_995),
        Section::Replace(0, 3),
        Section::Keep(20),
        Section::Replace(0, 3),
        Section::Keep(1_285),
    ];
    let steps: [&[Section<u32>]; 2] = [&less, &more];
    let rows = [
        (1, 1099, 0),
        (1100, 1100, 3),
        (1281, 1281, -1_797),
        (1282, 1400, -1_794),
    ];
    for (copied, want) in &[
        ([(1081, 1100), (1281, 1300)], Some(true)),
        ([(1081, 1100), (1281, 1299)], None),
    ] {
        assert!(rt; stand_after(rt.alloc(), 1400, copied, &steps, &rows)? == *want);
    }
    Ok(())
}

/// The fourth group keeps its last chunk, of points 1261 to 1280, which an insertion meets at once: a run stands before the 6 chunks of
/// the last group.
#[test]
fn a_run_is_put_before_a_small_group(rt: HostRuntime) -> Result<(), Fail> {
    let step = [
        Section::Keep(9_605),
        Section::Replace(3_000, 0),
        Section::Keep(10),
        Section::Replace(0, 3),
        Section::Keep(1_485),
    ];
    let steps: [&[Section<u32>]; 1] = [&step];
    let rows = [(1, 960, 0), (1261, 1261, -3_000), (1262, 1400, -2_997)];
    for (copied, want) in &[
        ([(1261, 1280), (0, 0)], Some(true)),
        ([(1261, 1279), (0, 0)], None),
    ] {
        assert!(rt; stand_after(rt.alloc(), 1400, copied, &steps, &rows)? == *want);
    }
    Ok(())
}
