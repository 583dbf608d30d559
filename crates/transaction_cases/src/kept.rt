use change_desc::{Desc, Section};
use cm_plain::{KeptMap, Plain};
use kept_effects::mapped_value;
use std::alloc::{AllocError, Global};
use std::test::*;

/// An insertion of two characters at 1 and a deletion of two characters at 3, over six characters.
fn changes(alloc: Global) -> Result<Desc, AllocError> {
    let mut desc = Desc::new(alloc);
    desc.push(Section::Keep(1))?;
    desc.push(Section::Replace(0, 2))?;
    desc.push(Section::Keep(2))?;
    desc.push(Section::Replace(2, 0))?;
    desc.push(Section::Keep(1))?;
    Ok(desc)
}

fn list(alloc: Global, from: i64, to: i64) -> Result<Option<Plain>, AllocError> {
    let mut items = Vec::new(alloc);
    items.push(Plain::Int(from))?;
    items.push(Plain::Int(to))?;
    Ok(Plain::list(items).ok())
}

/// The numbers of a value: one, or those of a list of two.
fn numbers(value: Option<Plain>) -> Option<(i64, i64)> {
    match value {
        Some(Plain::Int(number)) => Some((number, number)),
        Some(Plain::List(list)) => match list.as_slice() {
            [Plain::Int(from), Plain::Int(to)] => Some((*from, *to)),
            _ => None,
        },
        _ => None,
    }
}

fn mapped_position(alloc: Global, number: i64) -> Result<Option<(i64, i64)>, AllocError> {
    let desc = changes(alloc)?;
    let value = Plain::Int(number);
    Ok(numbers(mapped_value(alloc, Some(KeptMap::Position), &value, &desc)?))
}

#[test]
fn positions_move(rt: HostRuntime) -> Result<(), Fail> {
    for (number, want) in &[
        (0, Some((0, 0))),
        (1, Some((3, 3))),
        (3, Some((5, 5))),
        (4, None),
        (5, Some((5, 5))),
        (6, Some((6, 6))),
        (7, None),
        (-1, None),
    ] {
        assert!(rt;
            mapped_position(rt.alloc(), *number)? == *want,
            "at {number}"
        );
    }
    Ok(())
}

fn mapped_range(
    alloc: Global,
    map: Option<KeptMap>,
    from: i64,
    to: i64,
) -> Result<Option<(i64, i64)>, AllocError> {
    let desc = changes(alloc)?;
    match list(alloc, from, to)? {
        None => Ok(None),
        Some(value) => Ok(numbers(mapped_value(alloc, map, &value, &desc)?)),
    }
}

#[test]
fn ranges_move(rt: HostRuntime) -> Result<(), Fail> {
    for (from, to, want) in &[
        (0, 1, Some((0, 1))),
        (1, 2, Some((3, 4))),
        (0, 6, Some((0, 6))),
        (3, 5, None),
        (2, 2, None),
        (2, 1, Some((2, 1))),
        (5, 7, Some((5, 7))),
        (-1, 2, Some((-1, 2))),
    ] {
        assert!(rt;
            mapped_range(rt.alloc(), Some(KeptMap::Range), *from, *to)? == *want,
            "{from}"
        );
    }
    Ok(())
}

#[test]
fn other_values_stay(rt: HostRuntime) -> Result<(), Fail> {
    assert!(rt; mapped_range(rt.alloc(), None, 3, 5)? == Some((3, 5)));
    assert!(rt; mapped_range(rt.alloc(), Some(KeptMap::Position), 3, 5)? == Some((3, 5)));
    Ok(())
}
