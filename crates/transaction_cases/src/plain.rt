use cm_plain::{KeptEffect, KeptMap, Plain, Str};
use std::alloc::{AllocError, Global};
use std::test::*;

fn text(alloc: Global) -> Result<Str, AllocError> {
    Str::of_text(alloc, "a漢\n")
}

fn is_spelled(alloc: Global, characters: &[char], written: &str) -> Result<bool, AllocError> {
    let text = Str::of_text(alloc, written)?;
    let copy = text.try_copy()?;
    Ok(copy.same(&text) && copy.chars() == characters)
}

fn is_written(alloc: Global, characters: &[char], written: &str) -> Result<bool, AllocError> {
    let text = Str::of(alloc, characters)?;
    let string = text.text()?;
    Ok(string.as_str() == written)
}

#[test]
fn a_text_keeps_its_characters(rt: HostRuntime) -> Result<(), Fail> {
    assert!(rt; is_spelled(rt.alloc(), &['a', '漢', '\n'], "a漢\n")?);
    assert!(rt; is_written(rt.alloc(), &['a', '漢', '\n'], "a漢\n")?);
    assert!(rt; !text(rt.alloc())?.same(&Str::empty(rt.alloc())));
    assert!(rt; Str::empty(rt.alloc()).is_empty());
    Ok(())
}

fn is_below(alloc: Global, event: &str, of: &[char]) -> Result<bool, AllocError> {
    let event = Str::of_text(alloc, event)?;
    Ok(event.is_below(of))
}

#[test]
fn an_event_is_below_its_prefix_up_to_a_full_stop(rt: HostRuntime) -> Result<(), Fail> {
    for (event, below) in &[
        ("undo", true),
        ("undo.all", true),
        ("undone", false),
        ("und", false),
        ("", false),
    ] {
        assert!(rt; is_below(rt.alloc(), event, &['u', 'n', 'd', 'o'])? == *below);
    }
    Ok(())
}

/// The list of one value.
fn wrapped(value: Plain, alloc: Global) -> Result<Option<Plain>, AllocError> {
    let items = vec![in alloc; value]?;
    Ok(Plain::list(items).ok())
}

/// A list in a list, this many deep, around an empty one, unless that is too deep.
fn nested(alloc: Global, depth: u32) -> Result<Option<Plain>, AllocError> {
    let mut value = Plain::list(Vec::new(alloc)).ok();
    for _level in 1..depth {
        value = match value {
            Some(inner) => wrapped(inner, alloc)?,
            None => None,
        };
    }
    Ok(value)
}

/// How deep such a list is, and a copy of it.
fn depth_of_copy(alloc: Global, depth: u32) -> Result<Option<u32>, AllocError> {
    match nested(alloc, depth)? {
        None => Ok(None),
        Some(value) => {
            let copy = value.try_copy(alloc)?;
            if !copy.same(&value) {
                return Ok(None);
            }
            Ok(Some(copy.depth()))
        }
    }
}

#[test]
fn a_list_is_at_most_16_deep(rt: HostRuntime) -> Result<(), Fail> {
    assert!(rt; depth_of_copy(rt.alloc(), 15)? == Some(15));
    assert!(rt; depth_of_copy(rt.alloc(), 16)? == Some(16));
    assert!(rt; depth_of_copy(rt.alloc(), 17)? == None);
    Ok(())
}

#[test]
fn kept_maps_have_numbers(rt: HostRuntime) {
    assert!(rt; KeptMap::of_number(1) == Some(KeptMap::Position));
    assert!(rt; KeptMap::of_number(2) == Some(KeptMap::Range));
    assert!(rt; KeptMap::of_number(0) == None && KeptMap::of_number(3) == None);
    assert!(rt; KeptMap::Range.number() == 2);
}

fn is_copied(alloc: Global) -> Result<bool, AllocError> {
    let effect = KeptEffect {
        id: 3,
        map: None,
        value: Plain::Text(text(alloc)?),
    };
    let copy = effect.try_copy(alloc)?;
    Ok(copy.same(&effect) && copy.id == 3)
}

#[test]
fn a_copy_of_an_effect_is_the_same(rt: HostRuntime) -> Result<(), Fail> {
    assert!(rt; is_copied(rt.alloc())?);
    Ok(())
}
