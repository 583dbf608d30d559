ghost use Rattle.std.specs.Prelude.{◌≡◌, ◌<◌};
ghost use Rattle.change_desc.specs.Sections.{old_size};
ghost use Rattle.range_set.specs.Mapping.{EndWithin};

use crate::numbered::{Numbered, described};
use change_desc::{Desc, Section};
use range_set::{RangeSet, RangeValue, Ranged};
use std::alloc::{AllocError, Global};
use std::marker::Brand;
use std::sync::ledger::{Blank, Ledger};
use std::test::*;
use steps::Steps;

/// The value of the point with an index, counted from 0.
fn numbered(index: u32, most: u32) -> Numbered {
    Numbered {
        start: 1,
        end: 1,
        number: index.wrapping_add(1),
        most,
        is_point: true,
    }
}

/// Points at 10, 20 and so on, numbered from 1, of which those over `most` refuse to be copied.
fn points(alloc: Global, count: u32, most: u32) -> Result<RangeSet<Numbered>, Fail> {
    let mut ranges = Vec::new(alloc);
    let mut place = 0u32;
    for index in 0..count {
        place = place.wrapping_add(10);
        ranges.push(Ranged {
            from: place,
            to: place,
            value: numbered(index, most),
        })?;
    }
    Ok(RangeSet::of(ranges)?)
}

/// Whether a set is that of so many points, each where an insertion of 3 characters at a place moves it.
fn stand_after(set: &RangeSet<Numbered>, at: u32, count: u32, most: u32) -> bool {
    let mut place = 0u32;
    let mut ranges = set.iter();
    for index in 0..count {
        place = place.wrapping_add(10);
        let want = if place < at {
            place
        } else {
            place.wrapping_add(3)
        };
        match ranges.next() {
            None => return false,
            Some(range) => {
                if range.from != want
                    || range.to != want
                    || !range.value.same(&numbered(index, most))
                {
                    return false;
                }
            }
        }
    }
    ranges.next().is_none()
}

/// A set over changes that start in a text that holds it, once mapped and once mapped with a counter.
fn mapped_twice<L: Ledger>(
    set: &RangeSet<Numbered>,
    changes: &Desc,
    blank: Blank,
) -> Result<(RangeSet<Numbered>, RangeSet<Numbered>), AllocError>
    requires name { blank.name ≡ L.name }
    requires parts { blank.parts ≡ L.parts }
    requires some { 0 < blank.parts }
    requires inside { EndWithin (old_size changes.now) set.now }
{
    let mut mapped: Steps<L> = Steps::new(blank);
    let counted = set.map_steps(changes, &mut mapped)?;
    let other = set.map(changes)?;
    Ok((counted, other))
}

/// Whether so many points, of which those over `most` refuse to be copied, are mapped over an insertion: `None` where out of
/// memory.
fn mapped_points(
    set: &RangeSet<Numbered>,
    changes: &Desc,
    at: u32,
    count: u32,
    most: u32,
) -> Option<bool> {
    if !set.ends_within(changes.len()) {
        return None;
    }
    match mapped_twice::<Brand>(set, changes, Blank::new(1)) {
        Ok((counted, other)) => {
            Some(stand_after(&counted, at, count, most) && stand_after(&other, at, count, most))
        }
        Err(_) => None,
    }
}

/// The same in a text of 20,000 characters.
fn mapped_in_text(alloc: Global, count: u32, most: u32, at: u32) -> Result<Option<bool>, Fail> {
    let set = points(alloc, count, most)?;
    let rest = 20_000u32.wrapping_sub(at);
    let changes = described(
        alloc,
        &[
            Section::Keep(at),
            Section::Replace(0, 3),
            Section::Keep(rest),
        ],
    )?;
    Ok(mapped_points(&set, &changes, at, count, most))
}

#[test]
fn chunks_that_no_change_meets_are_shared(rt: HostRuntime) -> Result<(), Fail> {
    assert!(rt; mapped_in_text(rt.alloc(), 1000, 0, 15_000)? == Some(true));
    assert!(rt; mapped_in_text(rt.alloc(), 1000, 0, 5)? == Some(true));
    assert!(rt; mapped_in_text(rt.alloc(), 1000, 20, 165)? == Some(true));
    assert!(rt; mapped_in_text(rt.alloc(), 1000, 19, 165)? == None);
    // 40 points stand in two chunks
    assert!(rt; mapped_in_text(rt.alloc(), 40, 20, 15)? == Some(true));
    assert!(rt; mapped_in_text(rt.alloc(), 40, 19, 15)? == None);
    Ok(())
}

#[test]
fn many_points_are_mapped(rt: HostRuntime) -> Result<(), Fail> {
    let set = points(rt.alloc(), 100_000, u32::MAX)?;
    let sections = [
        Section::Keep(500_005),
        Section::Replace(0, 3),
        Section::Keep(500_000),
    ];
    let changes = described(rt.alloc(), &sections)?;
    assert!(rt; mapped_points(&set, &changes, 500_005, 100_000, u32::MAX) == Some(true));
    Ok(())
}

/// Ten points from a place on, ten characters apart, that refuse to be copied.
fn push_still(ranges: &mut Vec<Ranged<Numbered>>, first: u32) -> Result<(), AllocError> {
    for index in 1..11u32 {
        let place = first.wrapping_add(index.wrapping_mul(10));
        ranges.push(Ranged {
            from: place,
            to: place,
            value: numbered(index, 0),
        })?;
    }
    Ok(())
}

/// A span of so many characters from 0 with such points from 10 on, or, where it isn't first, after such points from 10 to 100.
fn span_and_points(
    alloc: Global,
    len: u32,
    is_first: bool,
) -> Result<Vec<Ranged<Numbered>>, AllocError> {
    let mut ranges = Vec::new(alloc);
    let from = if is_first { 0 } else { 100 };
    if !is_first {
        push_still(&mut ranges, 0)?;
    }
    ranges.push(Ranged {
        from,
        to: from.wrapping_add(len),
        value: numbered(0, u32::MAX),
    })?;
    if is_first {
        push_still(&mut ranges, 0)?;
    }
    Ok(ranges)
}

/// How many ranges a mapped set has: `None` where it can't be mapped.
fn mapped_len(set: &RangeSet<Numbered>, changes: &Desc) -> Option<usize> {
    if !set.ends_within(changes.len()) {
        return None;
    }
    match mapped_twice::<Brand>(set, changes, Blank::new(1)) {
        Ok((counted, _)) => Some(counted.len()),
        Err(_) => None,
    }
}

/// The same of a set and an insertion at 200.
fn mapped_at_200(alloc: Global, set: &RangeSet<Numbered>) -> Result<Option<usize>, AllocError> {
    let sections = [
        Section::Keep(200),
        Section::Replace(0, 3),
        Section::Keep(800),
    ];
    let changes = described(alloc, &sections)?;
    Ok(mapped_len(set, &changes))
}

/// The same of the set of such a span and points, which is made of them, or to which they are added.
fn mapped_beside_span(
    alloc: Global,
    len: u32,
    is_first: bool,
    is_added: bool,
) -> Result<Option<usize>, Fail> {
    let ranges = span_and_points(alloc, len, is_first)?;
    let set = if is_added {
        RangeSet::empty(alloc).with_added(ranges)?
    } else {
        RangeSet::of(ranges)?
    };
    Ok(mapped_at_200(alloc, &set)?)
}

#[test]
fn a_long_range_shares_no_chunk(rt: HostRuntime) -> Result<(), Fail> {
    for is_first in [true, false] {
        for is_added in [true, false] {
            assert!(rt; mapped_beside_span(rt.alloc(), 256, is_first, is_added)? == None);
            assert!(rt; mapped_beside_span(rt.alloc(), 257, is_first, is_added)? == Some(11));
        }
    }
    Ok(())
}

/// A set of so many points without those at a place, with one more there: `None` where out of memory.
fn updated_points(
    alloc: Global,
    count: u32,
    most: u32,
    at: u32,
) -> Result<Option<RangeSet<Numbered>>, Fail> {
    let set = points(alloc, count, most)?;
    let mut add = Vec::new(alloc);
    add.push(Ranged {
        from: at,
        to: at,
        value: numbered(at, most),
    })?;
    Ok(set.update(add, |range| range.from != at).ok())
}

/// How many ranges a set has, and whether its range at the place is the added one alone.
fn found_at(set: &RangeSet<Numbered>, at: u32) -> (usize, bool) {
    let mut found = set.between(at, at);
    let is_added = match found.next() {
        None => false,
        Some(range) => range.value.number == at.wrapping_add(1) && found.next().is_none(),
    };
    (set.len(), is_added)
}

/// The same of updated points: `None` where out of memory.
fn has_update(
    alloc: Global,
    count: u32,
    most: u32,
    at: u32,
) -> Result<Option<(usize, bool)>, Fail> {
    let Some(set) = updated_points(alloc, count, most, at)? else {
        return Ok(None);
    };
    Ok(Some(found_at(&set, at)))
}

/// Points, and first a span from 0 to the last of them where `is_spanned`: the same span over a whole text.
fn spanned(
    alloc: Global,
    count: u32,
    most: u32,
    is_spanned: bool,
) -> Result<RangeSet<Numbered>, Fail> {
    let set = points(alloc, count, most)?;
    if !is_spanned {
        return Ok(set);
    }
    let mut span = Vec::new(alloc);
    span.push(Ranged {
        from: 0,
        to: count.wrapping_mul(10),
        value: numbered(0, u32::MAX),
    })?;
    Ok(set.with_added(span)?)
}

/// The same of points, under a span where `is_spanned`, with one more that is added without a filter.
fn has_more(
    alloc: Global,
    count: u32,
    most: u32,
    at: u32,
    is_spanned: bool,
) -> Result<Option<(usize, bool)>, Fail> {
    let set = spanned(alloc, count, most, is_spanned)?;
    let mut add = Vec::new(alloc);
    add.push(Ranged {
        from: at,
        to: at,
        value: numbered(at, most),
    })?;
    let Some(more) = set.with_added(add).ok() else {
        return Ok(None);
    };
    Ok(Some(found_at(&more, at)))
}

#[test]
fn chunks_that_an_update_leaves_are_shared(rt: HostRuntime) -> Result<(), Fail> {
    assert!(rt; has_update(rt.alloc(), 1000, 0, 15_000)? == Some((1001, true)));
    assert!(rt; has_update(rt.alloc(), 1000, 0, 5)? == Some((1001, true)));
    assert!(rt; has_update(rt.alloc(), 1000, 20, 160)? == Some((1000, true)));
    assert!(rt; has_update(rt.alloc(), 1000, 19, 160)? == None);
    // 44 points stand in chunks of 20, 12 and 12, none of which is small
    assert!(rt; has_update(rt.alloc(), 44, 0, 15_000)? == Some((45, true)));
    Ok(())
}

#[test]
fn chunks_without_an_added_range_are_shared(rt: HostRuntime) -> Result<(), Fail> {
    // 20,000 points stand in some 60 groups, the first chunk of which has points 1 to 20
    assert!(rt; has_more(rt.alloc(), 20_000, 0, 300_000, false)? == Some((20_001, true)));
    assert!(rt; has_more(rt.alloc(), 20_000, 0, 5, false)? == Some((20_001, true)));
    assert!(rt; has_more(rt.alloc(), 20_000, 20, 165, false)? == Some((20_001, true)));
    assert!(rt; has_more(rt.alloc(), 20_000, 19, 165, false)? == None);
    assert!(rt; has_more(rt.alloc(), 20_000, 0, 300_000, true)? == Some((20_002, true)));
    assert!(rt; has_more(rt.alloc(), 0, 0, 5, false)? == Some((1, true)));
    Ok(())
}

/// Points at these places.
fn points_at(alloc: Global, places: &[u32]) -> Result<Vec<Ranged<Numbered>>, AllocError> {
    let mut ranges = Vec::new(alloc);
    for at in places {
        ranges.push(Ranged {
            from: *at,
            to: *at,
            value: numbered(*at, u32::MAX),
        })?;
    }
    Ok(ranges)
}

/// How many ranges so many points have with one more before all and one after all.
fn widened(alloc: Global, count: u32) -> Result<usize, Fail> {
    let set = points(alloc, count, u32::MAX)?;
    let last = count.wrapping_mul(10);
    let add = points_at(alloc, &[3, last.wrapping_add(3)])?;
    Ok(set.with_added(add)?.len())
}

/// Whether so many points are as before where none is added.
fn stay(alloc: Global, count: u32) -> Result<bool, Fail> {
    let set = points(alloc, count, u32::MAX)?;
    Ok(set.with_added(Vec::new(alloc))?.same(&set))
}

#[test]
fn ranges_are_added_around_groups(rt: HostRuntime) -> Result<(), Fail> {
    for (count, want) in &[(20_000, 20_002), (0, 2)] {
        assert!(rt; widened(rt.alloc(), *count)? == *want);
        assert!(rt; stay(rt.alloc(), *count)?);
    }
    Ok(())
}
