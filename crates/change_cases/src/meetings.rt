use crate::walks::described;
use change_desc::{Desc, MapMode, PositionIndex, Section};
use std::alloc::{AllocError, Global};
use std::test::Fail;

/// Whether some replaced range of one description overlaps or touches one of another.
fn meet(
    alloc: Global,
    sections: &[Section<u32>],
    others: &[Section<u32>],
) -> Result<bool, AllocError> {
    let first = described(alloc, sections)?;
    let second = described(alloc, others)?;
    first.meets(&second)
}

#[test]
fn changes_meet(rt: HostRuntime) -> Result<(), Fail> {
    let sections = [
        Section::Keep(2),
        Section::Replace(1, 0),
        Section::Keep(4),
        Section::Replace(0, 3),
        Section::Keep(5),
    ];
    for (at, len, want) in [
        (1, 0, false),
        (1, 1, true),
        (3, 0, true),
        (4, 2, false),
        (4, 3, true),
        (7, 0, true),
        (8, 4, false),
        (0, 12, true),
    ] {
        let other = [
            Section::Keep(at),
            Section::Replace(len, 1),
            Section::Keep(12 - at - len),
        ];
        assert!(rt; meet(rt.alloc(), &sections, &other)? == want, "at {at}");
        assert!(rt; meet(rt.alloc(), &other, &sections)? == want, "from {at}");
    }
    Ok(())
}

/// Whether walks that begin at each place, from the last on, answer as each place by itself does.
fn begins_alike(alloc: Global, desc: &Desc) -> Result<bool, AllocError> {
    let index = PositionIndex::new(alloc, desc)?;
    let len = desc.len();
    for back in 0..len {
        let pos = len - back;
        let found = index.walk_from(pos).map_pos(pos, -1, MapMode::TrackDel);
        if found != desc.map_pos(pos, -1, MapMode::TrackDel)
            || index.walk_from(pos).place_after(pos, 1) != desc.place_after(pos, 1)
        {
            return Ok(false);
        }
    }
    Ok(true)
}

fn are_begun_alike(alloc: Global, sections: &[Section<u32>]) -> Result<bool, AllocError> {
    let desc = described(alloc, sections)?;
    begins_alike(alloc, &desc)
}

#[test]
fn walks_begin_anywhere(rt: HostRuntime) -> Result<(), Fail> {
    let sections = [
        Section::Replace(0, 2),
        Section::Keep(3),
        Section::Replace(2, 1),
        Section::Keep(1),
        Section::Replace(2, 0),
        Section::Replace(0, 4),
        Section::Keep(2),
    ];
    assert!(rt; are_begun_alike(rt.alloc(), &sections)?);
    Ok(())
}
