// Facets, fields, effect kinds and pairs over what is declared from the start.
use crate::answer::{Answer, answered};
use configuration::{Dependency, FacetDef, FieldDef};
use ext_tree::{ExtId, ExtIds};
use listed::Listed;
use registry::{IdSort, Registry, RegistryError, RuleSort};
use shipped_rules::Shipped;
use std::alloc::{AllocError, Global};
use std::test::*;

/// A declaration.
#[derive(Clone, Copy)]
pub enum Declared {
    /// By its combiner, its two comparers, and a node that it enables.
    Facet(u32, u32, u32, Option<ExtId>),
    /// By its creator, its updater, what it reads, and an effect kind that it listens to.
    Field(u32, u32, Dependency, u32),
    Place(u32, Option<ExtId>),
    Effect(Option<u32>),
    Pair(u32, u32),
    Compartment,
}

fn ids_of(alloc: Global, id: Option<ExtId>) -> Result<ExtIds, AllocError> {
    let mut ids = Vec::new(alloc);
    if let Some(id) = id {
        ids.push(id)?;
    }
    Ok(ExtIds::of(ids))
}

pub fn reads_of(alloc: Global, read: Dependency) -> Result<Listed<Dependency>, AllocError> {
    let mut reads = Listed::empty(alloc);
    reads.push(read)?;
    Ok(reads)
}

fn listens_of(alloc: Global, effect: u32) -> Result<Listed<u32>, AllocError> {
    let mut listens = Listed::empty(alloc);
    listens.push(effect)?;
    Ok(listens)
}

fn facet(
    registry: &mut Registry<Shipped>,
    alloc: Global,
    def: FacetDef,
    enables: Option<ExtId>,
) -> Result<u32, RegistryError> {
    let ids = ids_of(alloc, enables)?;
    registry.facet(def, ids)
}

/// A field that compares its values by equality.
pub fn field_def(
    alloc: Global,
    create: u32,
    update: u32,
    read: Dependency,
    effect: u32,
) -> Result<FieldDef, AllocError> {
    let reads = reads_of(alloc, read)?;
    let listens = listens_of(alloc, effect)?;
    Ok(FieldDef {
        create,
        update,
        compare: 1,
        reads,
        listens,
    })
}

fn field(
    registry: &mut Registry<Shipped>,
    alloc: Global,
    create: u32,
    update: u32,
    read: Dependency,
    effect: u32,
) -> Result<u32, RegistryError> {
    let def = field_def(alloc, create, update, read, effect)?;
    registry.field_declare(def)
}

fn place(
    registry: &mut Registry<Shipped>,
    alloc: Global,
    field: u32,
    provides: Option<ExtId>,
) -> Result<u32, RegistryError> {
    let ids = ids_of(alloc, provides)?;
    registry.field_place(field, ids)
}

fn pair(registry: &mut Registry<Shipped>, effect: u32, back: u32) -> Result<u32, RegistryError> {
    registry.pair(effect, back)?;
    Ok(effect)
}

/// Declares it; of a pair it answers the first effect kind.
pub fn declare(
    registry: &mut Registry<Shipped>,
    alloc: Global,
    declared: Declared,
) -> Result<u32, RegistryError> {
    match declared {
        Declared::Facet(combine, compare_input, compare, enables) => {
            let def = FacetDef {
                combine,
                compare_input,
                compare,
                is_static: false,
            };
            facet(registry, alloc, def, enables)
        }
        Declared::Field(create, update, read, effect) => {
            field(registry, alloc, create, update, read, effect)
        }
        Declared::Place(field, provides) => place(registry, alloc, field, provides),
        Declared::Effect(map) => registry.effect(map),
        Declared::Pair(effect, back) => pair(registry, effect, back),
        Declared::Compartment => registry.compartment(),
    }
}

/// What the last of some declarations answers, or the first one that is refused.
fn last(alloc: Global, all: &[Declared]) -> Result<u32, RegistryError> {
    let mut registry = Registry::<Shipped>::new(alloc)?;
    let mut id = 0;
    for declared in all {
        id = declare(&mut registry, alloc, *declared)?;
    }
    Ok(id)
}

/// What a declaration answers over what is declared from the start.
fn first(alloc: Global, declared: Declared) -> Answer {
    answered(last(alloc, &[declared]))
}

/// What the second of two declarations answers.
fn second(alloc: Global, one: Declared, other: Declared) -> Answer {
    answered(last(alloc, &[one, other]))
}

#[test]
fn the_next_ids(rt: HostRuntime) {
    for (declared, id) in &[
        (Declared::Facet(1, 2, 3, Some(0)), 10),
        (Declared::Field(2, 2, Dependency::Facet(9), 0), 1),
        (Declared::Effect(Some(2)), 1),
        (Declared::Pair(0, 0), 0),
        (Declared::Compartment, 0),
    ] {
        assert!(rt; first(rt.alloc(), *declared) == Answer::Id(*id));
    }
}

#[test]
fn unknown_ids(rt: HostRuntime) {
    for (declared, sort, id) in &[
        (Declared::Facet(1, 1, 1, Some(1)), IdSort::Node, 1),
        (
            Declared::Field(1, 1, Dependency::Facet(10), 0),
            IdSort::Facet,
            10,
        ),
        (
            Declared::Field(1, 1, Dependency::Field(1), 0),
            IdSort::Field,
            1,
        ),
        (Declared::Field(1, 1, Dependency::Doc, 1), IdSort::Effect, 1),
        (Declared::Place(1, None), IdSort::Field, 1),
        (Declared::Place(0, Some(1)), IdSort::Node, 1),
        (Declared::Pair(0, 1), IdSort::Effect, 1),
        (Declared::Pair(2, 1), IdSort::Effect, 2),
    ] {
        assert!(rt; first(rt.alloc(), *declared) == Answer::UnknownId(*sort, *id));
    }
}

#[test]
fn unknown_rules(rt: HostRuntime) {
    for (declared, sort, number) in &[
        (Declared::Facet(0, 1, 1, None), RuleSort::Combine, 0),
        (Declared::Facet(14, 4, 4, None), RuleSort::Combine, 14),
        (Declared::Facet(1, 4, 0, None), RuleSort::Compare, 4),
        (Declared::Facet(1, 1, 0, None), RuleSort::Compare, 0),
        (
            Declared::Field(8, 9, Dependency::Doc, 0),
            RuleSort::Create,
            8,
        ),
        (
            Declared::Field(1, 9, Dependency::Doc, 0),
            RuleSort::Update,
            9,
        ),
        (Declared::Effect(Some(0)), RuleSort::EffectMap, 0),
        (Declared::Effect(Some(3)), RuleSort::EffectMap, 3),
    ] {
        assert!(rt; first(rt.alloc(), *declared) == Answer::UnknownRule(*sort, *number));
    }
}

#[test]
fn a_field_of_another_shape(rt: HostRuntime) {
    let field = Declared::Field(1, 2, Dependency::Doc, 0);
    assert!(rt; first(rt.alloc(), field) == Answer::WrongShape(1));
    let history = Declared::Field(6, 3, Dependency::Selection, 0);
    assert!(rt; first(rt.alloc(), history) == Answer::WrongShape(1));
}

#[test]
fn a_field_is_placed_once(rt: HostRuntime) {
    let field = Declared::Field(1, 1, Dependency::Field(0), 0);
    assert!(rt; first(rt.alloc(), Declared::Place(0, None)) == Answer::AlreadyPlaced(0));
    assert!(rt; second(rt.alloc(), field, Declared::Place(1, Some(0))) == Answer::Id(1));
}

#[test]
fn pairs_of_effect_kinds(rt: HostRuntime) {
    let place = Declared::Effect(Some(1));
    let plain = Declared::Effect(None);
    assert!(rt; second(rt.alloc(), place, Declared::Pair(0, 1)) == Answer::BadInverse(0, 1));
    assert!(rt; second(rt.alloc(), place, Declared::Pair(1, 1)) == Answer::Id(1));
    assert!(rt; second(rt.alloc(), plain, Declared::Pair(0, 1)) == Answer::Id(0));
}

#[test]
fn a_pair_is_taken(rt: HostRuntime) {
    let alone = Declared::Pair(0, 0);
    assert!(rt; second(rt.alloc(), alone, alone) == Answer::InverseTaken(0));
    let all = [Declared::Effect(None), alone, Declared::Pair(1, 0)];
    assert!(rt; answered(last(rt.alloc(), &all)) == Answer::InverseTaken(0));
}
