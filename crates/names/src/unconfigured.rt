// Why there is no configuration, with names in place of ids.
ghost use Rattle.std.specs.Prelude.{◌≡◌, IfOk, Some, map};
ghost use Rattle.names.specs.ConfigRefusals.{config_refusal, written, written_vertex};
ghost use Rattle.registry.specs.declared.id_sort.IdSort.TheVariants.{Compartment, Node};
ghost use Rattle.script.specs.declared.extension_refusal.ExtensionRefusal.TheVariants.{DuplicateCompartment};
ghost use Rattle.script.specs.declared.refusal.Refusal.TheVariants.{Extensions};

use crate::names::Names;
use cm_plain::Str;
use configuration::{ConfigError, Vertex};
use ext_tree::ExtId;
use listed::Listed;
use registry::IdSort;
use script::{ExtensionRefusal, Refusal};
use std::alloc::{AllocError, Global};

/// How an id is written: by its name among the things of a sort, and as the empty text where it has none.
fn written(alloc: Global, names: &Names, sort: IdSort, id: u32) -> Result<Str, AllocError>
    ensures { IfOk result (λ name. name ≡ written names.now sort id) }
{
    match names.name_of(sort, id) {
        None => Ok(Str::empty(alloc)),
        Some(name) => Str::of(alloc, name),
    }
}

/// How a facet or field is written.
fn written_vertex(alloc: Global, names: &Names, vertex: Vertex) -> Result<Str, AllocError>
    ensures { IfOk result (λ name. name ≡ written_vertex names.now vertex) }
{
    match vertex {
        Vertex::Facet(id) => written(alloc, names, IdSort::Facet, id),
        Vertex::Field(id) => written(alloc, names, IdSort::Field, id),
    }
}

/// How some nodes are written.
fn written_nodes(alloc: Global, names: &Names, ids: &[ExtId]) -> Result<Vec<Str>, AllocError>
    ensures { IfOk result (λ v. v.items ≡ map (written names.now Node) ids.now) }
{
    let mut texts = Vec::with_capacity(alloc, ids.len())?;
    for id in ids {
        texts.push(written(alloc, names, IdSort::Node, *id)?)?;
    }
    Ok(texts)
}

/// How some facets and fields are written.
fn written_vertices(
    alloc: Global,
    names: &Names,
    vertices: &[Vertex],
) -> Result<Vec<Str>, AllocError>
    ensures { IfOk result (λ v. v.items ≡ map (written_vertex names.now) vertices.now) }
{
    let mut texts = Vec::with_capacity(alloc, vertices.len())?;
    for vertex in vertices {
        texts.push(written_vertex(alloc, names, *vertex)?)?;
    }
    Ok(texts)
}

/// A compartment has two slots.
fn duplicate(
    alloc: Global,
    names: &Names,
    compartment: u32,
    first: ExtId,
    second: ExtId,
) -> Result<ExtensionRefusal, AllocError>
    ensures { IfOk result (λ r. r ≡ DuplicateCompartment (written names.now Compartment compartment) (written names.now Node first) (written names.now Node second)) }
{
    let compartment = written(alloc, names, IdSort::Compartment, compartment)?;
    let first = written(alloc, names, IdSort::Node, first)?;
    let second = written(alloc, names, IdSort::Node, second)?;
    Ok(ExtensionRefusal::DuplicateCompartment {
        compartment,
        first,
        second,
    })
}

/// Why there is no configuration, as a reply tells it: `DuplicateCompartment`, `CompartmentLoop` with the slots on the path, or
/// `Cycle` with the facets and fields in it, all by name. Where an id has no name it is written as the empty text.
/// `UnknownName` doesn't come: no name stands for a node that isn't declared. `Err`: out of memory.
pub fn config_refusal(
    alloc: Global,
    names: &Names,
    error: &ConfigError,
) -> Result<Refusal, AllocError>
    ensures { IfOk result (λ r. config_refusal names.now error.now ≡ Some r) }
{
    match error {
        ConfigError::NoMemory => Err(AllocError),
        ConfigError::UnknownExt { id } => {
            let name = written(alloc, names, IdSort::Node, *id)?;
            Ok(Refusal::UnknownName { name })
        }
        ConfigError::DuplicateCompartment {
            compartment,
            first,
            second,
        } => Ok(Refusal::Extensions(duplicate(alloc, names, *compartment, *first, *second)?)),
        ConfigError::CompartmentLoop { path } => {
            let path = Listed::new(written_nodes(alloc, names, path.ids())?);
            Ok(Refusal::Extensions(ExtensionRefusal::CompartmentLoop { path }))
        }
        ConfigError::Cycle { members } => {
            let members = Listed::new(written_vertices(alloc, names, members.as_slice())?);
            Ok(Refusal::Extensions(ExtensionRefusal::Cycle { members }))
        }
    }
}
