use change_desc::{ChangedRange, ChangedRanges, Desc, MapMode, Section, Touch};
use std::alloc::{AllocError, Global};
use std::test::Fail;

/// A description of these sections, which are few and short; a long one is left out.
fn described(alloc: Global, sections: &[Section<u32>]) -> Result<Desc, AllocError> {
    let mut desc = Desc::new(alloc);
    for section in sections {
        if desc.len() < 100
            && desc.new_len() < 100
            && section.old_len() < 100
            && section.new_len() < 100
        {
            desc.push(*section)?;
        }
    }
    Ok(desc)
}

fn is(desc: &Desc, want: &[Section<u32>]) -> bool {
    desc.sections() == want
}

/// Whether sections that are pushed come to these.
fn are_pushed(
    alloc: Global,
    sections: &[Section<u32>],
    want: &[Section<u32>],
) -> Result<bool, AllocError> {
    let desc = described(alloc, sections)?;
    Ok(is(&desc, want))
}

#[test]
fn sections_are_in_normal_form(rt: HostRuntime) -> Result<(), Fail> {
    let no_change = [Section::Keep(1), Section::Replace(0, 0), Section::Keep(2)];
    assert!(rt; are_pushed(rt.alloc(), &no_change, &[Section::Keep(3)])?);
    let insertions = [Section::Replace(0, 1), Section::Replace(0, 2)];
    assert!(rt; are_pushed(rt.alloc(), &insertions, &[Section::Replace(0, 3)])?);
    let replacements = [Section::Replace(2, 1), Section::Replace(2, 1)];
    assert!(rt; are_pushed(rt.alloc(), &replacements, &replacements)?);
    Ok(())
}

/// Whether the description that keeps a text of this length has these sections, and changes nothing.
fn is_kept(alloc: Global, len: u32, want: &[Section<u32>]) -> bool {
    let kept = Desc::keep(alloc, len);
    kept.is_empty() && is(&kept, want)
}

#[test]
fn texts_are_kept(rt: HostRuntime) {
    assert!(rt; is_kept(rt.alloc(), 4, &[Section::Keep(4)]));
    assert!(rt; is_kept(rt.alloc(), 0, &[]));
}

/// Whether a change of two characters to one is one.
fn is_change(alloc: Global) -> Result<bool, AllocError> {
    let replaced = described(alloc, &[Section::Replace(2, 1)])?;
    Ok(!replaced.is_empty())
}

#[test]
fn a_replacement_is_a_change(rt: HostRuntime) -> Result<(), Fail> {
    assert!(rt; is_change(rt.alloc())?);
    Ok(())
}

/// Where a position goes, which lies in the text; 1000 where it doesn't.
fn moved(
    alloc: Global,
    sections: &[Section<u32>],
    pos: u32,
    side: i32,
    mode: MapMode,
) -> Result<Option<u32>, AllocError> {
    let desc = described(alloc, sections)?;
    if pos <= desc.len() {
        Ok(desc.map_pos(pos, side, mode))
    } else {
        Ok(Some(1000))
    }
}

#[test]
fn positions_move_at_an_insertion(rt: HostRuntime) -> Result<(), Fail> {
    let insertion = [Section::Keep(1), Section::Replace(0, 2), Section::Keep(1)];
    for (side, want) in [(-1, 1), (1, 3)] {
        let found = moved(rt.alloc(), &insertion, 1, side, MapMode::Simple)?;
        assert!(rt; found == Some(want), "side {side}");
    }
    Ok(())
}

#[test]
fn positions_move_in_a_replacement(rt: HostRuntime) -> Result<(), Fail> {
    for (pos, side, mode, want) in [
        (2, -1, MapMode::Simple, Some(0)),
        (2, 1, MapMode::Simple, Some(2)),
        (2, 1, MapMode::TrackDel, None),
        (4, -1, MapMode::Simple, Some(2)),
        (4, 1, MapMode::TrackAfter, Some(2)),
        (4, 1, MapMode::TrackBefore, None),
        (0, 1, MapMode::TrackAfter, None),
    ] {
        let found = moved(rt.alloc(), &[Section::Replace(4, 2)], pos, side, mode)?;
        assert!(rt; found == want, "at {pos}, side {side}");
    }
    Ok(())
}

/// How changes meet a range.
fn touched(
    alloc: Global,
    sections: &[Section<u32>],
    from: u32,
    to: u32,
) -> Result<Touch, AllocError> {
    let desc = described(alloc, sections)?;
    Ok(desc.touches(from, to))
}

#[test]
fn changes_touch(rt: HostRuntime) -> Result<(), Fail> {
    let replaced = [Section::Keep(1), Section::Replace(3, 1), Section::Keep(2)];
    for (from, to, want) in [
        (0, 0, Touch::No),
        (0, 1, Touch::Yes),
        (1, 3, Touch::Yes),
        (2, 3, Touch::Cover),
        (2, 4, Touch::Yes),
        (4, 6, Touch::Yes),
        (5, 6, Touch::No),
    ] {
        let found = touched(rt.alloc(), &replaced, from, to)?;
        assert!(rt; found == want, "from {from} to {to}");
    }
    Ok(())
}

/// The ranges that changes replace.
fn ranges_of(
    alloc: Global,
    sections: &[Section<u32>],
    individual: bool,
) -> Result<ChangedRanges, AllocError> {
    let desc = described(alloc, sections)?;
    desc.ranges(individual)
}

/// Whether changes replace these ranges.
fn are_ranges(
    alloc: Global,
    sections: &[Section<u32>],
    individual: bool,
    want: &[ChangedRange],
) -> Result<bool, AllocError> {
    let ranges = ranges_of(alloc, sections, individual)?;
    Ok(ranges.as_slice() == want)
}

/// A range of the old text, and of the new one.
fn range(from_a: u32, to_a: u32, from_b: u32, to_b: u32) -> ChangedRange {
    ChangedRange {
        from_a,
        to_a,
        from_b,
        to_b,
    }
}

#[test]
fn ranges_are_listed(rt: HostRuntime) -> Result<(), Fail> {
    let touching = [
        Section::Replace(2, 1),
        Section::Replace(2, 1),
        Section::Keep(3),
        Section::Replace(0, 5),
    ];
    let each = [range(0, 2, 0, 1), range(2, 4, 1, 2), range(7, 7, 5, 10)];
    assert!(rt; are_ranges(rt.alloc(), &touching, true, &each)?);
    let united = [range(0, 4, 0, 2), range(7, 7, 5, 10)];
    assert!(rt; are_ranges(rt.alloc(), &touching, false, &united)?);
    Ok(())
}

/// Changes and then others; none, where the others don't start where the first end.
fn composed(alloc: Global, first: &Desc, second: &Desc) -> Result<Desc, AllocError> {
    if first.new_len() == second.len() {
        first.compose(second)
    } else {
        Ok(Desc::new(alloc))
    }
}

/// A deletion and then an insertion at the same place.
fn both(alloc: Global) -> Result<Desc, AllocError> {
    let deletion = [Section::Keep(1), Section::Replace(2, 0), Section::Keep(1)];
    let insertion = [Section::Keep(1), Section::Replace(0, 1), Section::Keep(1)];
    let deletion = described(alloc, &deletion)?;
    let insertion = described(alloc, &insertion)?;
    composed(alloc, &deletion, &insertion)
}

/// Whether the description has these sections, and its copy too.
fn is_copied(desc: &Desc, want: &[Section<u32>]) -> Result<bool, AllocError> {
    let copy = desc.try_copy()?;
    Ok(is(desc, want) && is(&copy, want))
}

#[test]
fn changes_compose(rt: HostRuntime) -> Result<(), Fail> {
    let want = [
        Section::Keep(1),
        Section::Replace(2, 0),
        Section::Replace(0, 1),
        Section::Keep(1),
    ];
    let both = both(rt.alloc())?;
    assert!(rt; is_copied(&both, &want)?);
    Ok(())
}

fn turned_round(alloc: Global) -> Result<Desc, AllocError> {
    let both = both(alloc)?;
    both.inverted()
}

#[test]
fn changes_turn_round(rt: HostRuntime) -> Result<(), Fail> {
    let want = [
        Section::Keep(1),
        Section::Replace(0, 2),
        Section::Replace(1, 0),
        Section::Keep(1),
    ];
    let back = turned_round(rt.alloc())?;
    assert!(rt; is(&back, &want));
    Ok(())
}

/// Changes over the new text of others; none, where they don't start in one text or come to another length than 4.
fn mapped(alloc: Global, over: &Desc, desc: &Desc, before: bool) -> Result<Desc, AllocError> {
    if over.len() != desc.len() {
        return Ok(Desc::new(alloc));
    }
    if desc.mapped_len(over) != 4 {
        return Ok(Desc::new(alloc));
    }
    desc.map(over, before)
}

/// One of two insertions at one place over the other.
fn over_another(alloc: Global, before: bool) -> Result<Desc, AllocError> {
    let insertion = [Section::Keep(1), Section::Replace(0, 1), Section::Keep(1)];
    let desc = described(alloc, &insertion)?;
    mapped(alloc, &desc, &desc, before)
}

#[test]
fn maps_after_another(rt: HostRuntime) -> Result<(), Fail> {
    let after = over_another(rt.alloc(), false)?;
    assert!(rt;
        is(
            &after,
            &[Section::Keep(2), Section::Replace(0, 1), Section::Keep(1)]
        )
    );
    Ok(())
}

#[test]
fn maps_before_another(rt: HostRuntime) -> Result<(), Fail> {
    let ahead = over_another(rt.alloc(), true)?;
    assert!(rt;
        is(
            &ahead,
            &[Section::Keep(1), Section::Replace(0, 1), Section::Keep(2)]
        )
    );
    Ok(())
}

/// More sections than a description has room for without memory.
const MANY: [Section<u32>; 12] = [
    Section::Keep(1),
    Section::Replace(1, 2),
    Section::Keep(1),
    Section::Replace(1, 2),
    Section::Keep(1),
    Section::Replace(1, 2),
    Section::Keep(1),
    Section::Replace(1, 2),
    Section::Keep(1),
    Section::Replace(1, 2),
    Section::Keep(1),
    Section::Replace(1, 2),
];

/// Many sections and then no change.
fn many_and_none(alloc: Global) -> Result<Desc, AllocError> {
    let many = described(alloc, &MANY)?;
    let none = described(alloc, &[Section::Keep(18)])?;
    composed(alloc, &many, &none)
}

/// Many sections over no change.
fn many_over_none(alloc: Global) -> Result<Desc, AllocError> {
    let many = described(alloc, &MANY)?;
    let none = described(alloc, &[Section::Keep(12)])?;
    if none.len() != many.len() || many.mapped_len(&none) != 18 {
        return Ok(Desc::new(alloc));
    }
    many.map(&none, false)
}

/// Many sections turned round twice.
fn many_turned_twice(alloc: Global) -> Result<Desc, AllocError> {
    let back = described(alloc, &MANY)?.inverted()?;
    back.inverted()
}

#[test]
fn many_sections_are_kept(rt: HostRuntime) -> Result<(), Fail> {
    let many = described(rt.alloc(), &MANY)?;
    assert!(rt; is_copied(&many, &MANY)?);
    Ok(())
}

#[test]
fn many_sections_compose_map_and_turn(rt: HostRuntime) -> Result<(), Fail> {
    assert!(rt; is(&many_and_none(rt.alloc())?, &MANY));
    assert!(rt; is(&many_over_none(rt.alloc())?, &MANY));
    assert!(rt; is(&many_turned_twice(rt.alloc())?, &MANY));
    Ok(())
}
