// How many effect kinds and compartments there may be.
use crate::answer::{Answer, answered};
use crate::counts::how_many;
use crate::declared::{Declared, declare};
use registry::{IdSort, Registry, RegistryError};
use shipped_rules::Shipped;
use std::alloc::Global;
use std::test::*;

/// How many there may be of each kind.
const MOST: u32 = 1_048_576;

/// Declares the same so many times.
fn declare_all(
    registry: &mut Registry<Shipped>,
    alloc: Global,
    declared: Declared,
    count: u32,
) -> Result<(), RegistryError> {
    for _time in 0..count {
        declare(registry, alloc, declared)?;
    }
    Ok(())
}

/// What one more declaration answers, where it leaves as much declared as before.
fn refused(registry: &mut Registry<Shipped>, alloc: Global, declared: Declared) -> Option<Answer> {
    let before = how_many(registry);
    let answer = answered(declare(registry, alloc, declared));
    if how_many(registry) == before {
        Some(answer)
    } else {
        None
    }
}

/// The id of a declaration after so many, and what one more is refused as.
fn last_two(
    alloc: Global,
    declared: Declared,
    before: u32,
) -> Result<(u32, Option<Answer>), RegistryError> {
    let mut registry = Registry::<Shipped>::new(alloc)?;
    declare_all(&mut registry, alloc, declared, before)?;
    let last = declare(&mut registry, alloc, declared)?;
    Ok((last, refused(&mut registry, alloc, declared)))
}

fn ends(alloc: Global, declared: Declared, before: u32, kind: IdSort) -> bool {
    match last_two(alloc, declared, before) {
        Ok((last, refused)) => last == MOST - 1 && refused == Some(Answer::TooMany(kind)),
        Err(_) => false,
    }
}

#[test]
fn too_many_effect_kinds(rt: HostRuntime) {
    assert!(rt; ends(rt.alloc(), Declared::Effect(None), MOST - 2, IdSort::Effect));
}

#[test]
fn too_many_compartments(rt: HostRuntime) {
    assert!(rt;
        ends(
            rt.alloc(),
            Declared::Compartment,
            MOST - 1,
            IdSort::Compartment
        )
    );
}
