// What the cases declare over what is declared from the start.
use cm_plain::Plain;
use configuration::{Dependency, FacetDef, FieldDef};
use ext_tree::ExtIds;
use listed::Listed;
use registry::{
    ALLOW_MULTIPLE_SELECTIONS, CHANGE_FILTER, FILTER_DATA, NOTE, Registry, RegistryError,
    TRANSACTION_EXTENDER, TRANSACTION_FILTER,
};
use shipped_rules::Shipped;
use std::alloc::{AllocError, Global};
use values::Val;

/// Facet: the sum of its inputs, of which one is the length of the document.
pub(crate) const LENGTH: u32 = 10;
/// Facet: the sum of its inputs, of which one reads `LENGTH`.
pub(crate) const SUM: u32 = 11;
/// Facet: the list of its inputs, of which one reads `RIGHT`.
pub(crate) const LEFT: u32 = 12;
/// Facet: the list of its inputs, of which one reads `LEFT`.
pub(crate) const RIGHT: u32 = 13;
/// Facet: the list of its inputs, of which one is 1 and one is 2.
pub(crate) const LIST: u32 = 14;

/// Field: made as the document's length, and one more with each transaction that changes something.
pub(crate) const GROWN: u32 = 1;

/// Field: the list of what it was told.
pub(crate) const TOLD: u32 = 2;

/// The compartment of the field, and two of which the one is in the other.
pub(crate) const OF_FIELD: u32 = 0;

pub(crate) const INNER: u32 = 1;

pub(crate) const OUTER: u32 = 2;

/// The nodes, by id.
pub(crate) const LENGTH_INPUT: u32 = 1;

pub(crate) const SUM_INPUT: u32 = 2;

pub(crate) const LEFT_INPUT: u32 = 3;

pub(crate) const RIGHT_INPUT: u32 = 4;

pub(crate) const ONE: u32 = 5;

pub(crate) const TWO: u32 = 6;

pub(crate) const SEVERAL: u32 = 7;

pub(crate) const GROWN_NODE: u32 = 8;

pub(crate) const NOTHING: u32 = 9;

pub(crate) const FIELD_SLOT: u32 = 10;

pub(crate) const INNER_SLOT: u32 = 11;

pub(crate) const OUTER_SLOT: u32 = 12;

pub(crate) const INNER_AGAIN: u32 = 13;
/// A transaction filter that adds a break after changes, and one that lets nothing stay past a limit.
pub(crate) const BREAKS: u32 = 14;

pub(crate) const LIMITED: u32 = 15;
/// The limit: three characters.
pub(crate) const LIMIT: u32 = 16;
/// A change filter that lets no change stay.
pub(crate) const NONE_STAYS: u32 = 17;
/// An extender that tells the length of the start document.
pub(crate) const TELLS: u32 = 18;

pub(crate) const TOLD_NODE: u32 = 19;
/// No node has this id.
pub(crate) const UNKNOWN: u32 = 20;

/// A declaration.
#[derive(Clone, Copy)]
enum Made {
    /// A facet of a combiner.
    Facet(u32),
    /// An input of a facet, by a rule of what it reads.
    Computed(u32, u32, Dependency),
    /// A number as an input of a facet.
    Number(u32, i64),
    /// That several ranges are allowed.
    Several,
    /// A field of a creator and an updater, which reads the document.
    Field(u32, u32),
    /// A field that lists what it is told.
    Told,
    /// A group of nothing.
    Nothing,
    Compartment,
    /// A slot of a compartment with a content.
    Slot(u32, u32),
}

const ALL: &[Made] = &[
    Made::Facet(5),
    Made::Facet(5),
    Made::Facet(1),
    Made::Facet(1),
    Made::Facet(1),
    Made::Compartment,
    Made::Compartment,
    Made::Compartment,
    Made::Computed(LENGTH, 1, Dependency::Doc),
    Made::Computed(SUM, 5, Dependency::Facet(LENGTH)),
    Made::Computed(LEFT, 4, Dependency::Facet(RIGHT)),
    Made::Computed(RIGHT, 4, Dependency::Facet(LEFT)),
    Made::Number(LIST, 1),
    Made::Number(LIST, 2),
    Made::Several,
    Made::Field(3, 2),
    Made::Nothing,
    Made::Slot(OF_FIELD, GROWN_NODE),
    Made::Slot(INNER, ONE),
    Made::Slot(OUTER, INNER_SLOT),
    Made::Slot(INNER, TWO),
    Made::Number(TRANSACTION_FILTER, 3),
    Made::Number(TRANSACTION_FILTER, 4),
    Made::Number(FILTER_DATA, 3),
    Made::Number(CHANGE_FILTER, 2),
    Made::Number(TRANSACTION_EXTENDER, 3),
    Made::Told,
];

fn reads_of(alloc: Global, read: Dependency) -> Result<Listed<Dependency>, AllocError> {
    let mut reads = Listed::empty(alloc);
    reads.push(read)?;
    Ok(reads)
}

fn facet(
    alloc: Global,
    registry: &mut Registry<Shipped>,
    combine: u32,
) -> Result<u32, RegistryError> {
    let def = FacetDef {
        combine,
        compare_input: 1,
        compare: 1,
        is_static: false,
    };
    registry.facet(def, ExtIds::of(Vec::new(alloc)))
}

fn field(
    alloc: Global,
    registry: &mut Registry<Shipped>,
    create: u32,
    update: u32,
) -> Result<u32, RegistryError> {
    let reads = reads_of(alloc, Dependency::Doc)?;
    let def = FieldDef {
        create,
        update,
        compare: 1,
        reads,
        listens: Listed::empty(alloc),
    };
    match registry.field(def, &[]) {
        Ok(ids) => Ok(ids.field),
        Err(error) => Err(error),
    }
}

fn told(alloc: Global, registry: &mut Registry<Shipped>) -> Result<u32, RegistryError> {
    let mut listens = Listed::empty(alloc);
    listens.push(NOTE)?;
    let def = FieldDef {
        create: 4,
        update: 7,
        compare: 1,
        reads: Listed::empty(alloc),
        listens,
    };
    match registry.field(def, &[]) {
        Ok(ids) => Ok(ids.field),
        Err(error) => Err(error),
    }
}

fn computed(
    alloc: Global,
    registry: &mut Registry<Shipped>,
    facet: u32,
    rule: u32,
    read: Dependency,
) -> Result<u32, RegistryError> {
    let reads = reads_of(alloc, read)?;
    registry.input_compute(facet, rule, reads)
}

fn node_made(
    alloc: Global,
    registry: &mut Registry<Shipped>,
    made: Made,
) -> Result<u32, RegistryError> {
    match made {
        Made::Facet(combine) => facet(alloc, registry, combine),
        Made::Computed(facet, rule, read) => computed(alloc, registry, facet, rule, read),
        Made::Number(facet, number) => registry.input_of(facet, Val::Plain(Plain::Int(number))),
        Made::Several => registry.input_of(
            ALLOW_MULTIPLE_SELECTIONS,
            Val::Plain(Plain::Bool(true)),
        ),
        Made::Field(create, update) => field(alloc, registry, create, update),
        Made::Told => told(alloc, registry),
        Made::Nothing => registry.group(ExtIds::of(Vec::new(alloc))),
        Made::Compartment => registry.compartment(),
        Made::Slot(compartment, content) => registry.slot(compartment, content),
    }
}

/// What the cases declare.
pub(crate) fn declared(alloc: Global) -> Result<Registry<Shipped>, RegistryError> {
    let mut registry = Registry::<Shipped>::new(alloc)?;
    for one in ALL {
        node_made(alloc, &mut registry, *one)?;
    }
    Ok(registry)
}
