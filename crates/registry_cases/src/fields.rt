// Fields that are declared whole.
use crate::answer::{Answer, refusal};
use crate::counts::{Counts, how_many};
use crate::declared::field_def;
use configuration::Dependency;
use registry::{
    CHANGE_FILTER, FILTER_DATA, FieldIds, IdSort, Provided, READ_ONLY, Registry, RegistryError,
    RuleSort, SAVE_SEPARATOR,
};
use shipped_rules::Shipped;
use std::alloc::{AllocError, Global};
use std::test::*;

/// Declares a field of whole numbers that provides some inputs.
fn whole(
    registry: &mut Registry<Shipped>,
    alloc: Global,
    update: u32,
    provides: &[Provided],
) -> Result<FieldIds, RegistryError> {
    let def = field_def(alloc, 2, update, Dependency::Doc, 0)?;
    registry.field(def, provides)
}

/// The ids of a field and of its node, over what is declared from the start; none where it is refused.
fn ids(alloc: Global, provides: &[Provided]) -> Result<Option<(u32, u32)>, AllocError> {
    let mut registry = Registry::<Shipped>::new(alloc)?;
    match whole(&mut registry, alloc, 2, provides) {
        Ok(ids) => Ok(Some((ids.field, ids.node))),
        Err(_) => Ok(None),
    }
}

#[test]
fn whole_fields(rt: HostRuntime) -> Result<(), Fail> {
    let shown = Provided {
        facet: FILTER_DATA,
        rule: 1,
    };
    assert!(rt; ids(rt.alloc(), &[])? == Some((1, 1)));
    assert!(rt; ids(rt.alloc(), &[shown])? == Some((1, 2)));
    assert!(rt; ids(rt.alloc(), &[shown, shown])? == Some((1, 3)));
    Ok(())
}

/// How much is declared after a field that provides some inputs.
fn counted(alloc: Global, provides: &[Provided]) -> Result<Counts, AllocError> {
    let mut registry = Registry::<Shipped>::new(alloc)?;
    let _ids = whole(&mut registry, alloc, 2, provides);
    Ok(how_many(&registry))
}

#[test]
fn a_whole_field_with_its_inputs(rt: HostRuntime) -> Result<(), Fail> {
    let shown = Provided {
        facet: FILTER_DATA,
        rule: 1,
    };
    let want = Counts {
        facets: 10,
        fields: 2,
        nodes: 4,
        node_defs: 4,
        effects: 1,
        compartments: 0,
    };
    assert!(rt; counted(rt.alloc(), &[shown, shown])? == want);
    Ok(())
}

/// What a field with these inputs is refused as, if it is.
fn outcome(
    registry: &mut Registry<Shipped>,
    alloc: Global,
    update: u32,
    provides: &[Provided],
) -> Option<Answer> {
    match whole(registry, alloc, update, provides) {
        Ok(_) => None,
        Err(error) => Some(refusal(error)),
    }
}

/// What a field with an input that isn't refused and another is refused as, where as much is declared as before.
fn refused(alloc: Global, update: u32, other: Provided) -> Result<Option<Answer>, AllocError> {
    let shown = Provided {
        facet: FILTER_DATA,
        rule: 1,
    };
    let mut registry = Registry::<Shipped>::new(alloc)?;
    let before = how_many(&registry);
    let found = outcome(&mut registry, alloc, update, &[shown, other]);
    if how_many(&registry) == before {
        Ok(found)
    } else {
        Ok(None)
    }
}

#[test]
fn a_refused_field_leaves_nothing_behind(rt: HostRuntime) -> Result<(), Fail> {
    for (facet, rule, want) in &[
        (SAVE_SEPARATOR, 1, Answer::StaticFacet(SAVE_SEPARATOR)),
        (10, 1, Answer::UnknownId(IdSort::Facet, 10)),
        (FILTER_DATA, 7, Answer::UnknownRule(RuleSort::Compute, 7)),
        (CHANGE_FILTER, 1, Answer::WrongShape(CHANGE_FILTER)),
        (READ_ONLY, 4, Answer::WrongShape(READ_ONLY)),
    ] {
        let other = Provided {
            facet: *facet,
            rule: *rule,
        };
        assert!(rt; refused(rt.alloc(), 2, other)? == Some(*want));
    }
    Ok(())
}

#[test]
fn a_field_that_cannot_be_declared(rt: HostRuntime) -> Result<(), Fail> {
    let other = Provided { facet: 10, rule: 0 };
    assert!(rt; refused(rt.alloc(), 4, other)? == Some(Answer::WrongShape(1)));
    assert!(rt; refused(rt.alloc(), 9, other)? == Some(Answer::UnknownRule(RuleSort::Update, 9)));
    Ok(())
}
