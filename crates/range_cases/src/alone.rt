use crate::numbered::{Numbered, mapped, ranges_of, shows};
use change_desc::Section;
use range_set::{RangeSet, Ranged};
use std::alloc::{AllocError, Global};
use std::test::*;

/// A span as plain data: its ends, its number, and the greatest number that may be copied.
pub(crate) type Span = (u32, u32, u32, u32);

/// The set of some spans with the sides `side` and minus `side`, which stand for what they cover.
pub(crate) fn spans(alloc: Global, side: i32, rows: &[Span]) -> Result<RangeSet<Numbered>, Fail> {
    let mut ranges = Vec::new(alloc);
    for (from, to, number, most) in rows {
        ranges.push(Ranged {
            from: *from,
            to: *to,
            value: Numbered {
                start: side,
                end: side.wrapping_neg(),
                number: *number,
                most: *most,
                is_point: true,
            },
        })?;
    }
    Ok(RangeSet::of(ranges)?)
}

/// A set over a Replace at a place of a text of so many characters: `None` where a copy is refused.
pub(crate) fn over(
    alloc: Global,
    len: u32,
    set: &RangeSet<Numbered>,
    change: (u32, u32, u32),
) -> Result<Option<RangeSet<Numbered>>, AllocError> {
    let (at, old, new) = change;
    let rest = len.wrapping_sub(at).wrapping_sub(old);
    let sections = [
        Section::Keep(at),
        Section::Replace(old, new),
        Section::Keep(rest),
    ];
    mapped(alloc, set, &sections)
}

/// A set over a Replace at a place of a text of 1,000 characters: `None` where a copy is refused.
fn after(
    alloc: Global,
    set: &RangeSet<Numbered>,
    change: (u32, u32, u32),
) -> Result<Option<RangeSet<Numbered>>, AllocError> {
    over(alloc, 1_000, set, change)
}

/// Whether the span from 10 to 500 comes to these ends over a Replace: none where it is dropped. `None` where a copy is refused, as each
/// is where `most` is 0.
fn comes_to(
    alloc: Global,
    most: u32,
    change: (u32, u32, u32),
    want: &[(u32, u32, u32)],
) -> Result<Option<bool>, Fail> {
    let set = spans(alloc, 5, &[(10, 500, 1, most)])?;
    let moved = after(alloc, &set, change)?;
    Ok(moved.map(|moved| shows(&moved, want)))
}

#[test]
fn a_long_range_is_moved_without_a_copy(rt: HostRuntime) -> Result<(), Fail> {
    assert!(rt; comes_to(rt.alloc(), 0, (100, 0, 5), &[(10, 505, 1)])? == Some(true));
    assert!(rt; comes_to(rt.alloc(), 0, (100, 50, 0), &[(10, 450, 1)])? == Some(true));
    assert!(rt; comes_to(rt.alloc(), 0, (20, 233, 0), &[(10, 267, 1)])? == Some(true));
    assert!(rt; comes_to(rt.alloc(), 0, (490, 20, 3), &[(10, 490, 1)])? == Some(true));
    assert!(rt; comes_to(rt.alloc(), 0, (500, 0, 5), &[(10, 500, 1)])? == Some(true));
    Ok(())
}

#[test]
fn a_long_range_that_comes_to_be_short_is_copied(rt: HostRuntime) -> Result<(), Fail> {
    assert!(rt; comes_to(rt.alloc(), 0, (20, 234, 0), &[(10, 266, 1)])? == None);
    assert!(rt; comes_to(rt.alloc(), 1, (20, 234, 0), &[(10, 266, 1)])? == Some(true));
    Ok(())
}

#[test]
fn a_long_range_whose_start_is_met_is_copied(rt: HostRuntime) -> Result<(), Fail> {
    assert!(rt; comes_to(rt.alloc(), 0, (10, 0, 3), &[(13, 503, 1)])? == None);
    assert!(rt; comes_to(rt.alloc(), 1, (10, 0, 3), &[(13, 503, 1)])? == Some(true));
    assert!(rt; comes_to(rt.alloc(), 1, (5, 45, 0), &[(5, 455, 1)])? == Some(true));
    assert!(rt; comes_to(rt.alloc(), 1, (0, 600, 9), &[])? == Some(true));
    Ok(())
}

/// Whether an inclusive span that refuses to be copied takes up what is inserted at its end.
fn takes_up(alloc: Global) -> Result<Option<bool>, Fail> {
    let set = spans(alloc, -5, &[(10, 500, 1, 0)])?;
    let moved = after(alloc, &set, (500, 0, 5))?;
    Ok(moved.map(|moved| shows(&moved, &[(10, 505, 1)])))
}

/// Whether a span that refuses to be copied goes by its side over two Replaces within it, in five sections.
fn is_moved_twice(alloc: Global) -> Result<Option<bool>, Fail> {
    let set = spans(alloc, 5, &[(10, 500, 1, 0)])?;
    let sections = [
        Section::Keep(100),
        Section::Replace(0, 5),
        Section::Keep(100),
        Section::Replace(10, 0),
        Section::Keep(790),
    ];
    let moved = mapped(alloc, &set, &sections)?;
    Ok(moved.map(|moved| shows(&moved, &[(10, 495, 1)])))
}

/// Whether spans over one place, of which the short ones alone may be copied, stay in order as something is inserted there.
fn stay_in_order(alloc: Global) -> Result<Option<bool>, Fail> {
    let rows = [
        (90, 110, 1, 1),
        (91, 500, 2, 0),
        (92, 600, 3, 0),
        (95, 105, 4, 4),
    ];
    let set = spans(alloc, 5, &rows)?;
    let moved = after(alloc, &set, (100, 0, 3))?;
    let want = [(90, 113, 1), (91, 503, 2), (92, 603, 3), (95, 108, 4)];
    Ok(moved.map(|moved| shows(&moved, &want)))
}

#[test]
fn long_ranges_go_by_their_sides_and_stay_in_order(rt: HostRuntime) -> Result<(), Fail> {
    assert!(rt; takes_up(rt.alloc())? == Some(true));
    assert!(rt; is_moved_twice(rt.alloc())? == Some(true));
    assert!(rt; stay_in_order(rt.alloc())? == Some(true));
    Ok(())
}

/// The span from 10 to 500 over an insertion of 5 characters and one of 7.
fn grown(alloc: Global) -> Result<RangeSet<Numbered>, Fail> {
    let set = spans(alloc, 5, &[(10, 500, 1, 1)])?;
    let once = after(alloc, &set, (100, 0, 5))?.ok_or(AllocError)?;
    Ok(after(alloc, &once, (200, 0, 7))?.ok_or(AllocError)?)
}

/// Whether one of its ranges overlaps or touches what is from a place to another.
pub(crate) fn has_between(set: &RangeSet<Numbered>, from: u32, to: u32) -> bool {
    let mut found = set.between(from, to);
    found.next().is_some()
}

/// Whether one of its ranges stands for what it covers.
pub(crate) fn has_point(set: &RangeSet<Numbered>) -> bool {
    let mut points = set.points();
    points.next().is_some()
}

/// Whether it is the span from 10 to a place that is made there.
fn is_as_made(alloc: Global, to: u32) -> Result<bool, Fail> {
    let made = spans(alloc, 5, &[(10, to, 1, 1)])?;
    Ok(grown(alloc)?.same(&made))
}

#[test]
fn a_range_that_was_moved_alone_is_found(rt: HostRuntime) -> Result<(), Fail> {
    let set = grown(rt.alloc())?;
    assert!(rt; is_as_made(rt.alloc(), 512)? && !is_as_made(rt.alloc(), 505)?);
    assert!(rt; set.ends_within(512) && !set.ends_within(511));
    assert!(rt; has_between(&set, 512, 600) && !has_between(&set, 513, 600));
    assert!(rt; has_point(&set));
    Ok(())
}

/// The same with a range added, by a call that keeps all or one that asks.
fn with_more(alloc: Global, asks: bool) -> Result<RangeSet<Numbered>, Fail> {
    let add = ranges_of(alloc, &[(11, 12, 0, 0, 2)])?;
    let set = grown(alloc)?;
    if asks {
        Ok(set.update(add, |range| range.to == 512)?)
    } else {
        Ok(set.with_added(add)?)
    }
}

#[test]
fn a_range_is_added_to_one_that_was_moved_alone(rt: HostRuntime) -> Result<(), Fail> {
    for asks in &[false, true] {
        let set = with_more(rt.alloc(), *asks)?;
        assert!(rt; shows(&set, &[(10, 512, 1), (11, 12, 2)]));
    }
    Ok(())
}
