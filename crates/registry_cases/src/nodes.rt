// Nodes over what is declared from the start.
use crate::answer::{Answer, answered};
use crate::declared::{Declared, declare, reads_of};
use cm_plain::Plain;
use configuration::Dependency;
use ext_tree::{ExtId, ExtIds, Precedence};
use registry::{
    CHANGE_FILTER, DECORATIONS, FILTER_DATA, HISTORY, IdSort, READ_ONLY, Registry, RegistryError,
    RuleSort, SAVE_SEPARATOR, TAB_SIZE,
};
use shipped_rules::Shipped;
use std::alloc::{AllocError, Global};
use std::test::*;
use values::Val;

/// A node; values are whole numbers.
#[derive(Clone, Copy)]
enum Made {
    Group(ExtId, ExtId),
    Highest(ExtId),
    Slot(u32, ExtId),
    Of(u32, i64),
    Compute(u32, u32, Dependency),
    ComputeN(u32, u32, Dependency),
    From(u32, u32, u32),
    Init(u32, i64),
}

fn pair_of(alloc: Global, first: ExtId, second: ExtId) -> Result<ExtIds, AllocError> {
    let mut ids = Vec::new(alloc);
    ids.push(first)?;
    ids.push(second)?;
    Ok(ExtIds::of(ids))
}

fn group(
    registry: &mut Registry<Shipped>,
    alloc: Global,
    first: ExtId,
    second: ExtId,
) -> Result<ExtId, RegistryError> {
    let ids = pair_of(alloc, first, second)?;
    registry.group(ids)
}

fn compute(
    registry: &mut Registry<Shipped>,
    alloc: Global,
    facet: u32,
    rule: u32,
    read: Dependency,
) -> Result<ExtId, RegistryError> {
    let reads = reads_of(alloc, read)?;
    registry.input_compute(facet, rule, reads)
}

fn compute_n(
    registry: &mut Registry<Shipped>,
    alloc: Global,
    facet: u32,
    rule: u32,
    read: Dependency,
) -> Result<ExtId, RegistryError> {
    let reads = reads_of(alloc, read)?;
    registry.input_compute_n(facet, rule, reads)
}

fn number(value: i64) -> Val {
    Val::Plain(Plain::Int(value))
}

fn make(
    registry: &mut Registry<Shipped>,
    alloc: Global,
    made: Made,
) -> Result<ExtId, RegistryError> {
    match made {
        Made::Group(first, second) => group(registry, alloc, first, second),
        Made::Highest(of) => registry.prec(Precedence::Highest, of),
        Made::Slot(compartment, of) => registry.slot(compartment, of),
        Made::Of(facet, value) => registry.input_of(facet, number(value)),
        Made::Compute(facet, rule, read) => compute(registry, alloc, facet, rule, read),
        Made::ComputeN(facet, rule, read) => compute_n(registry, alloc, facet, rule, read),
        Made::From(facet, field, rule) => registry.input_from(facet, field, rule),
        Made::Init(field, value) => registry.init(field, number(value)),
    }
}

fn made_after(alloc: Global, all: &[Declared], made: Made) -> Result<ExtId, RegistryError> {
    let mut registry = Registry::<Shipped>::new(alloc)?;
    for declared in all {
        declare(&mut registry, alloc, *declared)?;
    }
    make(&mut registry, alloc, made)
}

/// What a node answers over what is declared from the start.
fn first(alloc: Global, made: Made) -> Answer {
    answered(made_after(alloc, &[], made))
}

#[test]
fn the_next_node(rt: HostRuntime) {
    for made in &[
        Made::Group(0, 0),
        Made::Highest(0),
        Made::Of(TAB_SIZE, 16),
        Made::Compute(FILTER_DATA, 1, Dependency::Doc),
        Made::ComputeN(FILTER_DATA, 2, Dependency::Facet(9)),
        Made::From(FILTER_DATA, HISTORY, 1),
    ] {
        assert!(rt; first(rt.alloc(), *made) == Answer::Id(1));
    }
}

#[test]
fn unknown_ids_of_nodes(rt: HostRuntime) {
    for (made, sort, id) in &[
        (Made::Group(0, 1), IdSort::Node, 1),
        (Made::Highest(1), IdSort::Node, 1),
        (Made::Slot(0, 1), IdSort::Compartment, 0),
        (Made::Of(10, 1), IdSort::Facet, 10),
        (Made::Compute(10, 0, Dependency::Doc), IdSort::Facet, 10),
        (Made::ComputeN(9, 0, Dependency::Field(1)), IdSort::Field, 1),
        (Made::From(9, 1, 0), IdSort::Field, 1),
        (Made::Init(1, 1), IdSort::Field, 1),
    ] {
        assert!(rt; first(rt.alloc(), *made) == Answer::UnknownId(*sort, *id));
    }
}

#[test]
fn unknown_rules_of_nodes(rt: HostRuntime) {
    for (made, sort, number) in &[
        (
            Made::Compute(SAVE_SEPARATOR, 0, Dependency::Doc),
            RuleSort::Compute,
            0,
        ),
        (
            Made::Compute(FILTER_DATA, 7, Dependency::Doc),
            RuleSort::Compute,
            7,
        ),
        (
            Made::ComputeN(FILTER_DATA, 3, Dependency::Doc),
            RuleSort::ComputeN,
            3,
        ),
        (Made::From(FILTER_DATA, HISTORY, 7), RuleSort::Compute, 7),
    ] {
        assert!(rt; first(rt.alloc(), *made) == Answer::UnknownRule(*sort, *number));
    }
}

#[test]
fn static_facets(rt: HostRuntime) {
    for made in &[
        Made::Compute(SAVE_SEPARATOR, 1, Dependency::Doc),
        Made::ComputeN(SAVE_SEPARATOR, 1, Dependency::Doc),
        Made::From(SAVE_SEPARATOR, HISTORY, 1),
    ] {
        assert!(rt; first(rt.alloc(), *made) == Answer::StaticFacet(SAVE_SEPARATOR));
    }
}

#[test]
fn values_of_another_shape(rt: HostRuntime) {
    for (made, id) in &[
        (Made::Of(TAB_SIZE, 17), TAB_SIZE),
        (Made::Of(READ_ONLY, 1), READ_ONLY),
        (Made::Of(DECORATIONS, 1), DECORATIONS),
        (
            Made::Compute(CHANGE_FILTER, 1, Dependency::Doc),
            CHANGE_FILTER,
        ),
        (
            Made::ComputeN(CHANGE_FILTER, 2, Dependency::Doc),
            CHANGE_FILTER,
        ),
        (Made::From(DECORATIONS, HISTORY, 1), DECORATIONS),
        (Made::Init(HISTORY, 1), HISTORY),
    ] {
        assert!(rt; first(rt.alloc(), *made) == Answer::WrongShape(*id));
    }
}

#[test]
fn a_slot_of_a_compartment(rt: HostRuntime) {
    let one = [Declared::Compartment];
    assert!(rt; answered(made_after(rt.alloc(), &one, Made::Slot(0, 0))) == Answer::Id(1));
    assert!(rt;
        answered(made_after(rt.alloc(), &one, Made::Slot(0, 1)))
            == Answer::UnknownId(IdSort::Node, 1)
    );
}

#[test]
fn an_init_of_a_placed_field(rt: HostRuntime) {
    let field = Declared::Field(2, 2, Dependency::Doc, 0);
    let place = Declared::Place(1, None);
    let init = Made::Init(1, -5);
    assert!(rt;
        answered(made_after(rt.alloc(), &[field], init)) == Answer::UnknownId(IdSort::Field, 1)
    );
    assert!(rt; answered(made_after(rt.alloc(), &[field, place], init)) == Answer::Id(2));
}
