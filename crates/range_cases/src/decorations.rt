use crate::numbered::described;
use change_desc::{Desc, MapMode, Section};
use cm_plain::Str;
use decoration::{
    Color, Deco, DecoError, DecoSet, Inclusive, Kind, Layers, Style, WidgetError, place, place_line,
};
use line_tree::Text;
use range_set::{RangeSet, RangeValue};
use std::alloc::Global;
use std::test::*;

const NEITHER: Inclusive = Inclusive {
    start: false,
    end: false,
};

const BOTH: Inclusive = Inclusive {
    start: true,
    end: true,
};

/// The set of one mark from 2 to 4.
fn marked(alloc: Global, inclusive: Inclusive) -> Result<DecoSet, Fail> {
    let mark = place(Deco::mark(Style::plain(), inclusive), 2, 4)
        .ok()
        .ok_or("a mark")?;
    let mut ranges = Vec::new(alloc);
    ranges.push(mark)?;
    Ok(RangeSet::of(ranges)?)
}

/// The ends of the first range of a mapped set, and how many ranges there are.
fn mapped(set: &DecoSet, changes: &Desc) -> Result<(usize, Option<(u32, u32)>), Fail> {
    if !set.ends_within(changes.len()) {
        return Ok((7, None));
    }
    let new = set.map(changes)?;
    let first = new.iter().next().map(|range| (range.from, range.to));
    Ok((new.len(), first))
}

fn mapped_mark(alloc: Global, inclusive: Inclusive) -> Result<(usize, Option<(u32, u32)>), Fail> {
    let set = marked(alloc, inclusive)?;
    let changes = described(
        alloc,
        &[Section::Keep(1), Section::Replace(4, 0), Section::Keep(1)],
    )?;
    mapped(&set, &changes)
}

#[test]
fn an_inclusive_mark_may_become_empty(rt: HostRuntime) -> Result<(), Fail> {
    assert!(rt; mapped_mark(rt.alloc(), BOTH)? == (1, Some((1, 1))));
    assert!(rt; mapped_mark(rt.alloc(), NEITHER)? == (0, None));
    Ok(())
}

#[test]
fn each_kind_has_its_ranges(rt: HostRuntime) -> Result<(), Fail> {
    let cases = [
        (Kind::Mark, 2, 1, Some(DecoError::Reversed { index: 0 })),
        (Kind::Mark, 1, 1, Some(DecoError::EmptyMark)),
        (Kind::Mark, 1, 2, None),
        (Kind::Widget, 1, 2, Some(DecoError::NotEmpty)),
        (Kind::Widget, 1, 1, None),
        (Kind::Replace, 3, 3, Some(DecoError::BadReplace)),
        (Kind::Replace, 3, 4, None),
        (Kind::Line, 0, 4, Some(DecoError::NotEmpty)),
        (Kind::Line, 0, 0, None),
    ];
    for (kind, from, to, error) in cases {
        assert!(rt; kind.check(from, to).err() == error);
    }
    Ok(())
}

/// The sides of a widget's ends, and whether its copy is the same.
fn widget_side(alloc: Global, side: i32) -> Result<(i32, i32, bool), Fail> {
    let widget = Deco::widget(alloc, Str::empty(alloc), Style::plain(), side)?;
    let copy = widget.try_copy(alloc)?;
    Ok((
        widget.start_side(),
        widget.end_side(),
        copy.same(&widget) && widget.is_point(),
    ))
}

/// The side for which a widget is refused.
fn refused_side(alloc: Global, side: i32) -> Option<i32> {
    match Deco::widget(alloc, Str::empty(alloc), Style::plain(), side) {
        Err(WidgetError::BadSide { side }) => Some(side),
        _ => None,
    }
}

#[test]
fn a_widget_has_a_side(rt: HostRuntime) -> Result<(), Fail> {
    let cases = [(0, -1), (1, 1), (-3, -4), (10000, 10000), (-10000, -10001)];
    for (side, end) in cases {
        assert!(rt; widget_side(rt.alloc(), side)? == (end, end, true));
    }
    for side in [10001, -10001] {
        assert!(rt; refused_side(rt.alloc(), side) == Some(side));
    }
    Ok(())
}

/// Where a line decoration is placed, and how it moves; none where no line starts at the place.
fn line_at(text: &Text, pos: u32) -> Option<(u32, u32, MapMode)> {
    match place_line(text, pos, Style::plain()) {
        Ok(range) => Some((range.from, range.to, range.value.mode())),
        Err(_) => None,
    }
}

/// The place for which a line decoration is refused.
fn refused_line(text: &Text, pos: u32) -> Option<u32> {
    match place_line(text, pos, Style::plain()) {
        Err(DecoError::NotLineStart { pos }) => Some(pos),
        _ => None,
    }
}

#[test]
fn a_line_decoration_stands_at_a_line_start(rt: HostRuntime) -> Result<(), Fail> {
    let text = Text::of(rt.alloc(), &['a', 'b', '\n', 'c'])?;
    for pos in [0, 3] {
        assert!(rt; line_at(&text, pos) == Some((pos, pos, MapMode::TrackBefore)));
    }
    for pos in [1, 2, 4, 5] {
        assert!(rt; refused_line(&text, pos) == Some(pos));
    }
    Ok(())
}

/// Layers of a set of one mark and of one without ranges.
fn layers(alloc: Global) -> Result<Layers, Fail> {
    let mut sets = Vec::new(alloc);
    sets.push(marked(alloc, BOTH)?)?;
    sets.push(RangeSet::empty(alloc))?;
    Ok(Layers::of(sets))
}

/// How many sets a copy of some layers has, and whether it is the same.
fn copied(layers: &Layers) -> Result<(usize, bool), Fail> {
    let copy = layers.try_copy()?;
    Ok((copy.sets().len(), copy.same(layers)))
}

#[test]
fn layers_are_compared_and_copied(rt: HostRuntime) -> Result<(), Fail> {
    let shown = layers(rt.alloc())?;
    assert!(rt; copied(&shown)? == (2, true));
    assert!(rt; !shown.same(&Layers::empty(rt.alloc())));
    assert!(rt; Color::of(8).is_none());
    Ok(())
}

/// A replacement by one character that takes in text at its start alone.
fn replacement(alloc: Global) -> Result<Deco, Fail> {
    let text = Str::of(alloc, &['x'])?;
    let inclusive = Inclusive {
        start: true,
        end: false,
    };
    Ok(Deco::replace(alloc, text, Style::plain(), inclusive)?)
}

/// How many characters a replacement shows, and which of its ends take in text; none where it isn't a replacement.
fn what_is_shown(deco: &Deco) -> Option<(usize, bool, bool)> {
    match deco {
        Deco::Replace(replacement) => {
            let inclusive = replacement.inclusive();
            Some((replacement.text().len(), inclusive.start, inclusive.end))
        }
        _ => None,
    }
}

#[test]
fn a_replacement_is_copied(rt: HostRuntime) -> Result<(), Fail> {
    let deco = replacement(rt.alloc())?;
    let copy = deco.try_copy(rt.alloc())?;
    assert!(rt; copy.same(&deco));
    for each in [&deco, &copy] {
        assert!(rt; what_is_shown(each) == Some((1, true, false)));
        assert!(rt; (each.start_side(), each.end_side()) == (-20000, -20000));
    }
    Ok(())
}
