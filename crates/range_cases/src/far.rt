use crate::alone::{Span, has_between, has_point, over, spans};
use crate::numbered::{Numbered, ranges_of, shows};
use range_set::RangeSet;
use std::alloc::{AllocError, Global};
use std::test::*;

/// How many characters the text has.
const TEXT: u32 = 20_000;

/// Whether the span from 10 to 5,010 comes to these ends over a Replace: none where it is dropped. `None` where a copy is refused, as
/// each is where `most` is 0.
fn comes_to(
    alloc: Global,
    most: u32,
    change: (u32, u32, u32),
    want: &[(u32, u32, u32)],
) -> Result<Option<bool>, Fail> {
    come_to(alloc, &[(10, 5_010, 1, most)], change, want)
}

/// Whether spans come to these ends over a Replace. `None` where a copy is refused.
fn come_to(
    alloc: Global,
    rows: &[Span],
    change: (u32, u32, u32),
    want: &[(u32, u32, u32)],
) -> Result<Option<bool>, Fail> {
    let set = spans(alloc, 5, rows)?;
    let moved = over(alloc, TEXT, &set, change)?;
    Ok(moved.map(|moved| shows(&moved, want)))
}

#[test]
fn a_range_over_4_096_characters_is_moved_without_a_copy(rt: HostRuntime) -> Result<(), Fail> {
    assert!(rt; comes_to(rt.alloc(), 0, (100, 0, 5), &[(10, 5_015, 1)])? == Some(true));
    assert!(rt; comes_to(rt.alloc(), 0, (100, 50, 0), &[(10, 4_960, 1)])? == Some(true));
    assert!(rt; comes_to(rt.alloc(), 0, (20, 903, 0), &[(10, 4_107, 1)])? == Some(true));
    assert!(rt; comes_to(rt.alloc(), 0, (5_000, 20, 3), &[(10, 5_000, 1)])? == Some(true));
    assert!(rt; comes_to(rt.alloc(), 0, (5_010, 0, 5), &[(10, 5_010, 1)])? == Some(true));
    assert!(rt; comes_to(rt.alloc(), 0, (0, 2, 5), &[(13, 5_013, 1)])? == Some(true));
    assert!(rt; comes_to(rt.alloc(), 0, (6_000, 2, 5), &[(10, 5_010, 1)])? == Some(true));
    Ok(())
}

#[test]
fn a_range_that_comes_to_4_096_characters_is_copied(rt: HostRuntime) -> Result<(), Fail> {
    assert!(rt; comes_to(rt.alloc(), 0, (20, 904, 0), &[(10, 4_106, 1)])? == None);
    assert!(rt; comes_to(rt.alloc(), 1, (20, 904, 0), &[(10, 4_106, 1)])? == Some(true));
    assert!(rt; comes_to(rt.alloc(), 1, (20, 4_800, 0), &[(10, 210, 1)])? == Some(true));
    assert!(rt; comes_to(rt.alloc(), 1, (20, 4_800, 9), &[(10, 219, 1)])? == Some(true));
    Ok(())
}

#[test]
fn a_range_over_4_096_characters_whose_start_is_met_is_copied(rt: HostRuntime) -> Result<(), Fail> {
    assert!(rt; comes_to(rt.alloc(), 0, (10, 0, 3), &[(13, 5_013, 1)])? == None);
    assert!(rt; comes_to(rt.alloc(), 1, (10, 0, 3), &[(13, 5_013, 1)])? == Some(true));
    assert!(rt; comes_to(rt.alloc(), 1, (5, 45, 0), &[(5, 4_965, 1)])? == Some(true));
    assert!(rt; comes_to(rt.alloc(), 1, (0, 6_000, 9), &[])? == Some(true));
    Ok(())
}

/// Whether an inclusive span that refuses to be copied takes up what is inserted at its end.
fn takes_up(alloc: Global) -> Result<Option<bool>, Fail> {
    let set = spans(alloc, -5, &[(10, 5_010, 1, 0)])?;
    let moved = over(alloc, TEXT, &set, (5_010, 0, 5))?;
    Ok(moved.map(|moved| shows(&moved, &[(10, 5_015, 1)])))
}

#[test]
fn ranges_over_4_096_characters_stay_in_order(rt: HostRuntime) -> Result<(), Fail> {
    let rows = [
        (5, 8, 1, 0),
        (9, 6_000, 2, 0),
        (90, 110, 3, 3),
        (91, 500, 4, 0),
        (92, 9_000, 5, 0),
        (95, 105, 6, 6),
        (8_000, 8_010, 7, 7),
    ];
    let within = [
        (5, 8, 1),
        (9, 6_003, 2),
        (90, 113, 3),
        (91, 503, 4),
        (92, 9_003, 5),
        (95, 108, 6),
        (8_003, 8_013, 7),
    ];
    let after = [
        (5, 8, 1),
        (9, 5_999, 2),
        (90, 110, 3),
        (91, 500, 4),
        (92, 8_999, 5),
        (95, 105, 6),
        (7_999, 8_009, 7),
    ];
    assert!(rt; takes_up(rt.alloc())? == Some(true));
    assert!(rt; come_to(rt.alloc(), &rows, (100, 0, 3), &within)? == Some(true));
    assert!(rt; come_to(rt.alloc(), &rows, (5_000, 3, 2), &after)? == Some(true));
    Ok(())
}

/// A span over an insertion of 205 characters and one of 7. The first may make it longer than 4,096 characters.
fn grown(alloc: Global, to: u32) -> Result<RangeSet<Numbered>, Fail> {
    let set = spans(alloc, 5, &[(10, to, 1, 0)])?;
    let once = over(alloc, TEXT, &set, (100, 0, 205))?.ok_or(AllocError)?;
    Ok(over(alloc, TEXT, &once, (200, 0, 7))?.ok_or(AllocError)?)
}

/// Whether a span that grew so is the one from 10 to a place that is made there.
fn is_as_made(alloc: Global, from: u32, to: u32) -> Result<bool, Fail> {
    let made = spans(alloc, 5, &[(10, to, 1, 0)])?;
    Ok(grown(alloc, from)?.same(&made))
}

#[test]
fn a_range_of_a_group_of_its_own_is_found(rt: HostRuntime) -> Result<(), Fail> {
    let set = grown(rt.alloc(), 5_000)?;
    assert!(rt; is_as_made(rt.alloc(), 5_000, 5_212)? && !is_as_made(rt.alloc(), 5_000, 5_205)?);
    assert!(rt; is_as_made(rt.alloc(), 4_000, 4_212)? && is_as_made(rt.alloc(), 3_000, 3_212)?);
    assert!(rt; set.ends_within(5_212) && !set.ends_within(5_211));
    assert!(rt; has_between(&set, 5_212, 6_000) && !has_between(&set, 5_213, 6_000));
    assert!(rt; has_point(&set));
    Ok(())
}

/// The same with a range added, by a call that keeps all or one that asks.
fn with_more(alloc: Global, asks: bool) -> Result<RangeSet<Numbered>, Fail> {
    let add = ranges_of(alloc, &[(11, 12, 0, 0, 2)])?;
    let set = grown(alloc, 5_000)?;
    if asks {
        Ok(set.update(add, |range| range.to == 5_212)?)
    } else {
        Ok(set.with_added(add)?)
    }
}

#[test]
fn a_range_is_added_to_one_of_a_group_of_its_own(rt: HostRuntime) -> Result<(), Fail> {
    for asks in &[false, true] {
        let set = with_more(rt.alloc(), *asks)?;
        assert!(rt; shows(&set, &[(10, 5_212, 1), (11, 12, 2)]));
    }
    Ok(())
}

#[test]
fn a_range_of_4_096_characters_has_no_group_of_its_own(rt: HostRuntime) -> Result<(), Fail> {
    let change = (20, 3_700, 0);
    let short = [(10, 4_106, 1, 0)];
    let long = [(10, 4_107, 1, 0)];
    assert!(rt; come_to(rt.alloc(), &short, change, &[(10, 406, 1)])? == Some(true));
    assert!(rt; come_to(rt.alloc(), &long, change, &[(10, 407, 1)])? == None);
    Ok(())
}

#[test]
fn a_range_that_comes_to_be_short_stands_before_another(rt: HostRuntime) -> Result<(), Fail> {
    let rows = [(10, 5_010, 1, 1), (6_000, 6_010, 2, 0)];
    let want = [(10, 110, 1), (1_100, 1_110, 2)];
    assert!(rt; come_to(rt.alloc(), &rows, (20, 4_900, 0), &want)? == Some(true));
    Ok(())
}

/// Whether forty spans over 4,096 characters, more than one group or page is cut to, take up three characters within all of them.
fn forty_grow(alloc: Global) -> Result<Option<bool>, Fail> {
    let mut rows = Vec::new(alloc);
    let mut want = Vec::new(alloc);
    for number in 1..41 {
        rows.push((number, number + 5_000, number, 0))?;
        want.push((number, number + 5_003, number))?;
    }
    come_to(alloc, &rows, (100, 0, 3), &want)
}

#[test]
fn forty_ranges_over_4_096_characters_grow_without_a_copy(rt: HostRuntime) -> Result<(), Fail> {
    assert!(rt; forty_grow(rt.alloc())? == Some(true));
    Ok(())
}

/// A span over 4,096 characters before a short one, with two ranges added one by one right after its start.
fn with_two_added(alloc: Global) -> Result<RangeSet<Numbered>, Fail> {
    let set = spans(alloc, 5, &[(10, 5_010, 1, 0), (6_000, 6_010, 3, 9)])?;
    let once = set.with_added(ranges_of(alloc, &[(20, 21, 0, 0, 2)])?)?;
    Ok(once.with_added(ranges_of(alloc, &[(15, 16, 0, 0, 4)])?)?)
}

#[test]
fn ranges_are_added_right_after_the_start_of_a_long_one(rt: HostRuntime) -> Result<(), Fail> {
    let set = with_two_added(rt.alloc())?;
    let want = [(10, 5_010, 1), (15, 16, 4), (20, 21, 2), (6_000, 6_010, 3)];
    assert!(rt; shows(&set, &want));
    Ok(())
}
