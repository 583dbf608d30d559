// What the cases declare over what is declared from the start, and its configuration.
ghost use Rattle.std.specs.Prelude.{◌≡◌, IfOk};
ghost use Rattle.values.specs.Shipped.{shipped};
ghost use Rattle.facet_slots.specs.Lawful.{IsLawful};
ghost use Rattle.facet_slots.specs.Lent.{defs_of, definitions};
ghost use Rattle.facet_slots.specs.Resolving.{IsResolved};

use cm_plain::Plain;
use compartments::Contents;
use configuration::{Config, Defs, Dependency, FacetDef, FieldDef};
use ext_tree::ExtIds;
use facet_slots::shared_defs;
use listed::Listed;
use registry::{Registry, RegistryError};
use shipped_rules::Shipped;
use std::alloc::{AllocError, Global};
use std::rc::Rc;
use values::Val;

/// Facet: the length of the document.
const LENGTH: u32 = 10;
/// Facet: the sum of its inputs, of which one reads `LENGTH`.
const SUM: u32 = 11;
/// Facet: the list of its inputs, of which one is 7.
const LIST: u32 = 12;
/// An input of each facet, and a field that counts transactions which change something.
pub(crate) const NODES: &[u32] = &[1, 2, 3, 4];

/// A declaration.
#[derive(Clone, Copy)]
enum Made {
    /// A facet of a combiner and a comparer of inputs.
    Facet(u32, u32),
    /// An input of a facet, by a rule of what it reads.
    Computed(u32, u32, Dependency),
    /// A number as an input of a facet.
    Number(u32, i64),
    /// A field of a creator and an updater.
    Field(u32, u32),
}

fn facet(
    alloc: Global,
    registry: &mut Registry<Shipped>,
    combine: u32,
    compare_input: u32,
) -> Result<u32, RegistryError> {
    let def = FacetDef {
        combine,
        compare_input,
        compare: 1,
        is_static: false,
    };
    registry.facet(def, ExtIds::of(Vec::new(alloc)))
}

fn computed(
    alloc: Global,
    registry: &mut Registry<Shipped>,
    facet: u32,
    rule: u32,
    read: Dependency,
) -> Result<u32, RegistryError> {
    let mut reads = Listed::empty(alloc);
    reads.push(read)?;
    registry.input_compute(facet, rule, reads)
}

fn field(
    alloc: Global,
    registry: &mut Registry<Shipped>,
    create: u32,
    update: u32,
) -> Result<u32, RegistryError> {
    let def = FieldDef {
        create,
        update,
        compare: 1,
        reads: Listed::empty(alloc),
        listens: Listed::empty(alloc),
    };
    match registry.field(def, &[]) {
        Ok(ids) => Ok(ids.field),
        Err(error) => Err(error),
    }
}

fn declare(
    alloc: Global,
    registry: &mut Registry<Shipped>,
    made: Made,
) -> Result<u32, RegistryError> {
    match made {
        Made::Facet(combine, compare_input) => facet(alloc, registry, combine, compare_input),
        Made::Computed(facet, rule, read) => computed(alloc, registry, facet, rule, read),
        Made::Number(facet, number) => registry.input_of(facet, Val::Plain(Plain::Int(number))),
        Made::Field(create, update) => field(alloc, registry, create, update),
    }
}

fn all_declared(alloc: Global, all: &[Made]) -> Result<Registry<Shipped>, RegistryError> {
    let mut registry = Registry::<Shipped>::new(alloc)?;
    for made in all {
        declare(alloc, &mut registry, *made)?;
    }
    Ok(registry)
}

/// What is declared, where the inputs of `LENGTH` are compared by the comparer of this number.
pub(crate) fn declared(
    alloc: Global,
    compare_input: u32,
) -> Result<Registry<Shipped>, RegistryError> {
    let all = [
        Made::Facet(5, compare_input),
        Made::Facet(5, 1),
        Made::Facet(1, 1),
        Made::Computed(LENGTH, 1, Dependency::Doc),
        Made::Computed(SUM, 5, Dependency::Facet(LENGTH)),
        Made::Number(LIST, 7),
        Made::Field(2, 2),
    ];
    all_declared(alloc, &all)
}

/// The definitions that are declared, for slots to share.
pub(crate) fn shared(
    alloc: Global,
    registry: &Registry<Shipped>,
) -> Result<Rc<Defs<Val>>, AllocError>
    ensures { IfOk result (λ defs. defs_of defs.value ≡ definitions registry.now) }
{
    shared_defs(alloc, registry.defs())
}

/// What nodes come to; `Err` where they are refused, too.
fn resolved(
    alloc: Global,
    registry: &Registry<Shipped>,
    nodes: &[u32],
) -> Result<Config, AllocError>
    ensures resolved { IfOk result (λ config. IsResolved (record { defs = definitions registry.now; config = config })) }
    ensures lawful { IfOk result (λ config. IsLawful shipped (record { defs = definitions registry.now; config = config })) }
{
    let arena = registry.arena();
    let defs = registry.defs();
    match Config::resolve(alloc, arena, defs, nodes, &Contents::empty(alloc)) {
        Ok(config) => Ok(config),
        Err(_) => Err(AllocError),
    }
}

/// The configuration of nodes, for slots to share.
pub(crate) fn configured(
    alloc: Global,
    registry: &Registry<Shipped>,
    nodes: &[u32],
) -> Result<Rc<Config>, AllocError>
    ensures resolved { IfOk result (λ config. IsResolved (record { defs = definitions registry.now; config = config.value })) }
    ensures lawful { IfOk result (λ config. IsLawful shipped (record { defs = definitions registry.now; config = config.value })) }
{
    let config = resolved(alloc, registry, nodes)?;
    match Rc::new(alloc, config) {
        Ok(shared) => Ok(shared),
        Err(_) => Err(AllocError),
    }
}
