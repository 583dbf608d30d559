use change_desc::{Desc, MapMode, PositionWalker, Section};
use std::alloc::{AllocError, Global};
use std::test::Fail;

/// A description of these sections, which are few and short.
pub(crate) fn described(alloc: Global, sections: &[Section<u32>]) -> Result<Desc, AllocError> {
    let mut desc = Desc::new(alloc);
    for section in sections {
        if desc.len() < 100
            && desc.new_len() < 100
            && section.old_len() < 100
            && section.new_len() < 100
        {
            desc.push(*section)?;
        }
    }
    Ok(desc)
}

/// Whether one walk over all places answers as each place by itself does, with a side and a mode.
fn walks_alike(desc: &Desc, side: i32, mode: MapMode) -> bool {
    let mut walker = PositionWalker::new(desc);
    let len = desc.len();
    for pos in 0..len {
        if walker.map_pos(pos, side, mode) != desc.map_pos(pos, side, mode) {
            return false;
        }
    }
    walker.map_pos(len, side, mode) == desc.map_pos(len, side, mode)
}

/// The same for a description of these sections.
fn are_walked_alike(
    alloc: Global,
    sections: &[Section<u32>],
    side: i32,
    mode: MapMode,
) -> Result<bool, AllocError> {
    let desc = described(alloc, sections)?;
    Ok(walks_alike(&desc, side, mode))
}

#[test]
fn a_walk_answers_as_each_place_does(rt: HostRuntime) -> Result<(), Fail> {
    let sections = [
        Section::Replace(0, 2),
        Section::Keep(3),
        Section::Replace(2, 1),
        Section::Replace(2, 0),
        Section::Replace(0, 4),
        Section::Keep(2),
    ];
    for (side, mode) in [
        (-1, MapMode::Simple),
        (1, MapMode::Simple),
        (1, MapMode::TrackDel),
        (-1, MapMode::TrackBefore),
        (1, MapMode::TrackAfter),
    ] {
        assert!(rt;
            are_walked_alike(rt.alloc(), &sections, side, mode)?,
            "side {side}"
        );
    }
    Ok(())
}
