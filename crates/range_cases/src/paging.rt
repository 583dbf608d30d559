// Ranges of 257 characters, each of which has a chunk of its own. A group here has 16 chunks and a page 12 groups at most: 1,200 ranges
// stand in six pages of 12 groups and one of 3, of which the fourth begins with range 577, the sixth with range 961 and the last with
// range 1153.
use crate::numbered::{Copied, Numbered, is_among, mapped};
use change_desc::Section;
use range_set::{RangeRef, RangeSet, Ranged};
use std::alloc::{AllocError, Global};
use std::test::*;

/// How many ranges there are. They are numbered from 1.
const COUNT: u32 = 1_200;

/// The length of the text in which they lie.
const LEN: u32 = 360_000;

/// The number of a range that is added.
const ADDED: u32 = 5_000;

const STILL: Copied = [(0, 0), (0, 0)];

/// The ranges from one number to another, and how far their starts and their ends are moved.
type Row = (u32, u32, i64, i64);

/// Where the range with a number starts.
fn start_of(number: u32) -> u32 {
    number.wrapping_sub(1).wrapping_mul(300)
}

fn value(number: u32, may_be_copied: bool, is_point: bool) -> Numbered {
    let most = if may_be_copied { u32::MAX } else { 0 };
    Numbered {
        start: 1,
        end: -1,
        number,
        most,
        is_point,
    }
}

/// The ranges, of which the two with the numbers `points` stand for what they cover.
fn wide(alloc: Global, copied: &Copied, points: (u32, u32)) -> Result<RangeSet<Numbered>, Fail> {
    let mut ranges = Vec::new(alloc);
    for index in 0..COUNT {
        let number = index.wrapping_add(1);
        let from = start_of(number);
        let is_point = number == points.0 || number == points.1;
        ranges.push(Ranged {
            from,
            to: from.wrapping_add(257),
            value: value(number, is_among(copied, number), is_point),
        })?;
    }
    Ok(RangeSet::of(ranges)?)
}

/// How far rows say that the start and the end of a range are moved: `None` where it is dropped.
fn moved_by(rows: &[Row], number: u32) -> Option<(i64, i64)> {
    for (first, last, start, end) in rows {
        if *first <= number && number <= *last {
            return Some((*start, *end));
        }
    }
    None
}

/// Whether a range has the ends that rows say.
fn is_moved(range: &RangeRef<'_, Numbered>, rows: &[Row]) -> bool {
    match moved_by(rows, range.value.number) {
        None => false,
        Some((start, end)) => {
            let from = i64::from(start_of(range.value.number));
            let to = from.wrapping_add(257);
            i64::from(range.from) == from.wrapping_add(start)
                && i64::from(range.to) == to.wrapping_add(end)
        }
    }
}

/// How many ranges some rows have.
fn count_of(rows: &[Row]) -> u32 {
    let mut count = 0u32;
    for (first, last, _, _) in rows {
        count = count
            .wrapping_add(last.wrapping_sub(*first))
            .wrapping_add(1);
    }
    count
}

/// Whether a set has the ranges of some rows, so moved and in the order of their numbers, and no others.
fn has_rows(set: &RangeSet<Numbered>, rows: &[Row]) -> bool {
    let mut last = 0u32;
    let mut count = 0u32;
    for range in set.iter() {
        if range.value.number <= last || !is_moved(&range, rows) {
            return false;
        }
        last = range.value.number;
        count = count.wrapping_add(1);
    }
    count == count_of(rows)
}

/// The ranges mapped over changes, one after another.
fn all_mapped(
    alloc: Global,
    copied: &Copied,
    steps: &[&[Section<u32>]],
) -> Result<Option<RangeSet<Numbered>>, Fail> {
    let mut set = wide(alloc, copied, (0, 0))?;
    for sections in steps {
        match mapped(alloc, &set, sections)? {
            Some(next) => set = next,
            None => return Ok(None),
        }
    }
    Ok(Some(set))
}

/// Whether the ranges so mapped are those of some rows: `None` where they can't be mapped, or out of memory.
fn stand_after(
    alloc: Global,
    copied: &Copied,
    steps: &[&[Section<u32>]],
    rows: &[Row],
) -> Result<Option<bool>, Fail> {
    match all_mapped(alloc, copied, steps)? {
        Some(set) => Ok(Some(has_rows(&set, rows))),
        None => Ok(None),
    }
}

#[test]
fn ranges_in_pages_beside_a_change_are_not_copied(rt: HostRuntime) -> Result<(), Fail> {
    let step = [
        Section::Keep(209_700),
        Section::Replace(0, 7),
        Section::Keep(150_300),
    ];
    let steps: [&[Section<u32>]; 1] = [&step];
    let rows = [(1, 699, 0, 0), (700, COUNT, 7, 7)];
    for (copied, want) in &[([(700, 700), (0, 0)], Some(true)), (STILL, None)] {
        assert!(rt; stand_after(rt.alloc(), copied, &steps, &rows)? == *want);
    }
    Ok(())
}

#[test]
fn a_range_of_a_page_that_is_met_within_is_not_copied(rt: HostRuntime) -> Result<(), Fail> {
    let step = [
        Section::Keep(209_800),
        Section::Replace(0, 7),
        Section::Keep(150_200),
    ];
    let steps: [&[Section<u32>]; 1] = [&step];
    let rows = [(1, 699, 0, 0), (700, 700, 0, 7), (701, COUNT, 7, 7)];
    assert!(rt; stand_after(rt.alloc(), &STILL, &steps, &rows)? == Some(true));
    Ok(())
}

#[test]
fn ranges_in_pages_between_two_changes_are_not_copied(rt: HostRuntime) -> Result<(), Fail> {
    let step = [
        Section::Keep(1_200),
        Section::Replace(0, 3),
        Section::Keep(355_500),
        Section::Replace(0, 4),
        Section::Keep(3_300),
    ];
    let steps: [&[Section<u32>]; 1] = [&step];
    let rows = [(1, 4, 0, 0), (5, 1189, 3, 3), (1190, COUNT, 7, 7)];
    for (copied, want) in &[
        ([(5, 5), (1190, 1190)], Some(true)),
        ([(5, 5), (0, 0)], None),
    ] {
        assert!(rt; stand_after(rt.alloc(), copied, &steps, &rows)? == *want);
    }
    Ok(())
}

/// Ranges 574 to 579 are dropped, and none is copied.
#[test]
fn a_deletion_meets_two_pages(rt: HostRuntime) -> Result<(), Fail> {
    let step = [
        Section::Keep(171_890),
        Section::Replace(1_800, 0),
        Section::Keep(186_310),
    ];
    let steps: [&[Section<u32>]; 1] = [&step];
    let rows = [(1, 573, 0, 0), (580, COUNT, -1_800, -1_800)];
    assert!(rt; stand_after(rt.alloc(), &STILL, &steps, &rows)? == Some(true));
    Ok(())
}

/// Of the sixth page ranges 961 to 967 and 1139 to 1152 are left, which become one page with the groups of the last; then all is moved.
#[test]
fn a_small_page_takes_the_next_ones_groups(rt: HostRuntime) -> Result<(), Fail> {
    let less = [
        Section::Keep(290_090),
        Section::Replace(51_300, 0),
        Section::Keep(18_610),
    ];
    let more = [Section::Replace(0, 5), Section::Keep(308_700)];
    let steps: [&[Section<u32>]; 2] = [&less, &more];
    let rows = [(1, 967, 5, 5), (1139, COUNT, -51_295, -51_295)];
    let first = [(1, 1), (0, 0)];
    assert!(rt; stand_after(rt.alloc(), &first, &steps, &rows)? == Some(true));
    Ok(())
}

/// Whether the ranges are as before after some changes: `None` where they can't be mapped, or out of memory.
fn same_after(alloc: Global, steps: &[&[Section<u32>]]) -> Result<Option<bool>, Fail> {
    match all_mapped(alloc, &STILL, steps)? {
        Some(set) => Ok(Some(set.same(&wide(alloc, &STILL, (0, 0))?))),
        None => Ok(None),
    }
}

/// The sections of a change between ranges 700 and 701.
fn in_a_gap(change: Section<u32>) -> [Section<u32>; 3] {
    [Section::Keep(209_980), change, Section::Keep(150_020)]
}

#[test]
fn pages_moved_there_and_back_are_the_same(rt: HostRuntime) -> Result<(), Fail> {
    let there = in_a_gap(Section::Replace(0, 7));
    let back = in_a_gap(Section::Replace(7, 0));
    let steps: [&[Section<u32>]; 2] = [&there, &back];
    let once: [&[Section<u32>]; 1] = [&there];
    assert!(rt; same_after(rt.alloc(), &steps)? == Some(true));
    assert!(rt; same_after(rt.alloc(), &once)? == Some(false));
    Ok(())
}

/// The number of the first range of a set that overlaps or touches a span, and how many do.
fn found(set: &RangeSet<Numbered>, from: u32, to: u32) -> (u32, u32) {
    let mut first = 0u32;
    let mut count = 0u32;
    for range in set.between(from, to) {
        if count == 0 {
            first = range.value.number;
        }
        count = count.wrapping_add(1);
    }
    (first, count)
}

#[test]
fn ranges_are_found_over_a_border_of_pages(rt: HostRuntime) -> Result<(), Fail> {
    let set = wide(rt.alloc(), &STILL, (0, 0))?;
    for (from, to, want) in &[
        (172_757, 172_800, (576, 2)),
        (172_758, 172_799, (0, 0)),
        (172_200, 173_200, (575, 4)),
        (0, LEN, (1, COUNT)),
        (359_957, LEN, (COUNT, 1)),
        (359_958, LEN, (0, 0)),
    ] {
        assert!(rt; found(&set, *from, *to) == *want);
    }
    Ok(())
}

/// The numbers of the first two ranges that stand for what they cover, and how many do, where two of the ranges are made so.
fn points_of(alloc: Global, points: (u32, u32)) -> Result<(u32, u32, u32), Fail> {
    let set = wide(alloc, &STILL, points)?;
    let mut first = 0u32;
    let mut last = 0u32;
    let mut count = 0u32;
    for range in set.points() {
        if count == 0 {
            first = range.value.number;
        }
        last = range.value.number;
        count = count.wrapping_add(1);
    }
    Ok((first, last, count))
}

#[test]
fn points_are_found_after_pages_without(rt: HostRuntime) -> Result<(), Fail> {
    for (points, want) in &[
        ((1153, COUNT), (1153, COUNT, 2)),
        ((0, 1190), (1190, 1190, 1)),
        ((2, 577), (2, 577, 2)),
        ((576, 1152), (576, 1152, 2)),
        ((0, 0), (0, 0, 0)),
    ] {
        assert!(rt; points_of(rt.alloc(), *points)? == *want);
    }
    Ok(())
}

/// The list of one range that is added.
fn one(alloc: Global, from: u32, to: u32) -> Result<Vec<Ranged<Numbered>>, AllocError> {
    let mut ranges = Vec::new(alloc);
    ranges.push(Ranged {
        from,
        to,
        value: value(ADDED, true, false),
    })?;
    Ok(ranges)
}

/// The ranges, which refuse to be copied, and one that is added.
fn with_one(alloc: Global, from: u32, to: u32) -> Result<RangeSet<Numbered>, Fail> {
    let set = wide(alloc, &STILL, (0, 0))?;
    Ok(set.with_added(one(alloc, from, to)?)?)
}

/// How many ranges of a set come before the added one.
fn before_added(set: &RangeSet<Numbered>) -> u32 {
    let mut count = 0u32;
    for range in set.iter() {
        if range.value.number == ADDED {
            return count;
        }
        count = count.wrapping_add(1);
    }
    count
}

/// Whether a set without the added range is that of the ranges at their places.
fn has_others(alloc: Global, set: &RangeSet<Numbered>) -> Result<bool, Fail> {
    let others = set.update(Vec::new(alloc), |range| range.value.number != ADDED)?;
    Ok(has_rows(&others, &[(1, COUNT, 0, 0)]))
}

/// How many ranges come before one that is added, and whether the others stand as before.
fn added_at(alloc: Global, from: u32) -> Result<(u32, bool), Fail> {
    let set = with_one(alloc, from, from.wrapping_add(2))?;
    Ok((before_added(&set), has_others(alloc, &set)?))
}

#[test]
fn a_range_is_added_to_a_page(rt: HostRuntime) -> Result<(), Fail> {
    for (from, before) in &[
        (0, 1),
        (299, 1),
        (172_799, 576),
        (172_800, 577),
        (210_000, 701),
        (345_599, 1152),
        (400_000, COUNT),
    ] {
        assert!(rt; added_at(rt.alloc(), *from)? == (*before, true));
    }
    Ok(())
}

/// Whether ranges without those from one number to another are those of some rows, where one is added and left out again.
fn stand_without(alloc: Global, first: u32, last: u32, rows: &[Row]) -> Result<bool, Fail> {
    let set = with_one(alloc, 210_000, 210_002)?;
    let less = set.update(Vec::new(alloc), |range| {
        (range.value.number < first || last < range.value.number) && range.value.number != ADDED
    })?;
    Ok(has_rows(&less, rows))
}

#[test]
fn an_update_leaves_out_ranges_of_several_pages(rt: HostRuntime) -> Result<(), Fail> {
    for (first, last, rows) in &[
        (574, 579, [(1, 573, 0, 0), (580, COUNT, 0, 0)]),
        (577, 1152, [(1, 576, 0, 0), (1153, COUNT, 0, 0)]),
        (1, 576, [(577, 1152, 0, 0), (1153, COUNT, 0, 0)]),
    ] {
        assert!(rt; stand_without(rt.alloc(), *first, *last, rows)?);
    }
    Ok(())
}

/// Whether the ranges and one from the start to a place lie in texts of two lengths.
fn end_within(alloc: Global, to: u32, less: u32, len: u32) -> Result<(bool, bool), Fail> {
    let set = with_one(alloc, 0, to)?;
    Ok((set.ends_within(less), set.ends_within(len)))
}

/// The range with the greatest end stands in the last page, and then in the first.
#[test]
fn the_greatest_end_of_all_pages_counts(rt: HostRuntime) -> Result<(), Fail> {
    assert!(rt; end_within(rt.alloc(), 2, 359_956, 359_957)? == (false, true));
    assert!(rt; end_within(rt.alloc(), 400_000, 399_999, 400_000)? == (false, true));
    Ok(())
}

/// The ranges and so many more, which are added one at a time between ranges 100 and 101.
fn crowded(alloc: Global, count: u32) -> Result<RangeSet<Numbered>, Fail> {
    let mut set = wide(alloc, &STILL, (0, 0))?;
    for _ in 0..count {
        set = set.with_added(one(alloc, 29_980, 30_237)?)?;
    }
    Ok(set)
}

/// Which ranges touch a place after changes: `None` where the set can't be mapped, or out of memory.
fn found_after(
    alloc: Global,
    set: &RangeSet<Numbered>,
    sections: &[Section<u32>],
    place: u32,
) -> Result<Option<(u32, u32)>, Fail> {
    match mapped(alloc, set, sections)? {
        Some(moved) => Ok(Some(found(&moved, place, place))),
        None => Ok(None),
    }
}

/// Added one at a time at one place, ranges part their groups and pages again and again.
#[test]
fn many_ranges_are_added_at_one_place(rt: HostRuntime) -> Result<(), Fail> {
    let set = crowded(rt.alloc(), 300)?;
    let moved = [
        Section::Keep(29_970),
        Section::Replace(0, 5),
        Section::Keep(330_030),
    ];
    assert!(rt; set.len() == 1_500);
    assert!(rt; before_added(&set) == 100);
    assert!(rt; found(&set, 29_980, 29_980) == (ADDED, 300));
    assert!(rt; found_after(rt.alloc(), &set, &moved, 29_985)? == Some((ADDED, 300)));
    Ok(())
}
