use crate::made::{Made, is, value_of};
use change_desc::{Desc, Section};
use shipped_rules::map_effect;
use std::alloc::{AllocError, Global};
use std::test::*;
use values::Val;

fn described(alloc: Global, sections: &[Section<u32>]) -> Result<Desc, AllocError> {
    let mut desc = Desc::new(alloc);
    for section in sections {
        if desc.len() < 100
            && desc.new_len() < 100
            && section.old_len() < 100
            && section.new_len() < 100
        {
            desc.push(*section)?;
        }
    }
    Ok(desc)
}

/// The value of an effect over changes; `None` where the effect is dropped.
fn mapped(
    alloc: Global,
    number: u32,
    value: Val,
    sections: &[Section<u32>],
) -> Result<Option<Val>, AllocError> {
    let changes = described(alloc, sections)?;
    map_effect(alloc, number, value, &changes)
}

/// Whether it is the value that a case writes, or dropped where the case writes none.
fn is_as_written(
    alloc: Global,
    mapped: &Option<Val>,
    want: Option<Made<'_>>,
) -> Result<bool, Fail> {
    match (mapped, want) {
        (Some(mapped), Some(want)) => is(alloc, mapped, want),
        (None, None) => Ok(true),
        _ => Ok(false),
    }
}

fn maps(
    alloc: Global,
    number: u32,
    value: Made<'_>,
    sections: &[Section<u32>],
    want: Option<Made<'_>>,
) -> Result<bool, Fail> {
    let value = value_of(alloc, value)?;
    let mapped = mapped(alloc, number, value, sections)?;
    is_as_written(alloc, &mapped, want)
}

/// Two characters, and one inserted after them.
const TYPED: [Section<u32>; 2] = [Section::Keep(2), Section::Replace(0, 1)];

#[test]
fn places_are_mapped(rt: HostRuntime) -> Result<(), Fail> {
    for (value, want) in &[
        (Made::Int(1), Some(Made::Int(1))),
        (Made::Int(2), Some(Made::Int(3))),
        (Made::Int(3), None),
        (Made::Int(-1), None),
        (Made::Text("a"), Some(Made::Text("a"))),
    ] {
        assert!(rt; maps(rt.alloc(), 1, *value, &TYPED, *want)?);
    }
    Ok(())
}

#[test]
fn a_deleted_place_is_dropped(rt: HostRuntime) -> Result<(), Fail> {
    let deleted = [Section::Keep(1), Section::Replace(2, 0)];
    assert!(rt; maps(rt.alloc(), 1, Made::Int(2), &deleted, None)?);
    assert!(rt; maps(rt.alloc(), 2, Made::Ints(&[1, 3]), &deleted, None)?);
    assert!(rt;
        maps(
            rt.alloc(),
            2,
            Made::Ints(&[0, 3]),
            &deleted,
            Some(Made::Ints(&[0, 1]))
        )?
    );
    Ok(())
}

#[test]
fn pairs_of_places_are_mapped(rt: HostRuntime) -> Result<(), Fail> {
    for (value, want) in &[
        (Made::Ints(&[0, 2]), Some(Made::Ints(&[0, 2]))),
        (Made::Ints(&[1, 1]), None),
        (Made::Ints(&[2, 2]), None),
        (Made::Ints(&[0, 3]), Some(Made::Ints(&[0, 3]))),
        (Made::Ranges(&[]), Some(Made::Ranges(&[]))),
    ] {
        assert!(rt; maps(rt.alloc(), 2, *value, &TYPED, *want)?);
    }
    Ok(())
}
