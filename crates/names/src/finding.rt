// Names as what they stand for.
ghost use Rattle.std.specs.Prelude.{◌≡◌, Option, option_and_then};
ghost use Rattle.configuration.specs.declared.dependency.Dependency.{Dependency as DependencyData};
ghost use Rattle.script.specs.Reading.{Gives};
ghost use Rattle.names.specs.declared.named.Named.{Named as NamedData};
ghost use Rattle.names.specs.Names.{all_found, as_compartment, as_effect, as_facet, as_field, as_node, as_read, as_value, found, meaning_of};

use crate::named::Named;
use crate::names::Names;
use crate::valued::Valued;
use cm_plain::Str;
use configuration::Dependency;
use script::{LineError, Refusal};
use std::alloc::Global;

/// A sort of things that a name may stand for.
pub trait Sought {
    /// By what such a thing is known.
    type Key: Copy + Drop;

    /// By what a thing is known, if it is of this sort.
    ghost as_sort: { NamedData → Option Self.Key };

    /// By what a thing is known, if it is of this sort. Takes no memory.
    fn of(thing: Named) -> Option<Self::Key>
        ensures { result ≡ as_sort thing };
}

/// Compartments, by their ids.
pub struct Compartments;

/// Effect kinds, by their ids.
pub struct Effects;

/// Facets, by their ids.
pub struct Facets;

/// Fields, by their ids.
pub struct Fields;

/// Nodes, by their ids. A field's name is also the name of its node.
pub struct Nodes;

/// What a rule may read.
pub struct Reads;

/// What has a value: facets and fields.
pub struct Values;

impl Sought for Compartments {
    type Key = u32;

    ghost as_sort = { as_compartment };

    fn of(thing: Named) -> Option<u32> {
        match thing {
            Named::Compartment(id) => Some(id),
            _ => None,
        }
    }
}

impl Sought for Effects {
    type Key = u32;

    ghost as_sort = { as_effect };

    fn of(thing: Named) -> Option<u32> {
        match thing {
            Named::Effect(id) => Some(id),
            _ => None,
        }
    }
}

impl Sought for Facets {
    type Key = u32;

    ghost as_sort = { as_facet };

    fn of(thing: Named) -> Option<u32> {
        match thing {
            Named::Facet(id) => Some(id),
            _ => None,
        }
    }
}

impl Sought for Fields {
    type Key = u32;

    ghost as_sort = { as_field };

    fn of(thing: Named) -> Option<u32> {
        match thing {
            Named::Field { field, node: _ } => Some(field),
            _ => None,
        }
    }
}

impl Sought for Nodes {
    type Key = u32;

    ghost as_sort = { as_node };

    fn of(thing: Named) -> Option<u32> {
        match thing {
            Named::Field { field: _, node } => Some(node),
            Named::Node(node) => Some(node),
            _ => None,
        }
    }
}

impl Sought for Reads {
    type Key = Dependency;

    ghost as_sort = { as_read };

    fn of(thing: Named) -> Option<Dependency> {
        match thing {
            Named::Doc => Some(Dependency::Doc),
            Named::Selection => Some(Dependency::Selection),
            Named::Facet(id) => Some(Dependency::Facet(id)),
            Named::Field { field, node: _ } => Some(Dependency::Field(field)),
            _ => None,
        }
    }
}

impl Sought for Values {
    type Key = Valued;

    ghost as_sort = { as_value };

    fn of(thing: Named) -> Option<Valued> {
        match thing {
            Named::Facet(id) => Some(Valued::Facet(id)),
            Named::Field { field, node: _ } => Some(Valued::Field(field)),
            _ => None,
        }
    }
}

/// By what a name's thing is known, if the name is declared and its thing is of the sort. Takes no memory.
fn known_as<S: Sought>(names: &Names, name: &Str) -> Option<S::Key>
    ensures { result ≡ option_and_then S.as_sort (meaning_of name.now names.now) }
{
    match names.get(name) {
        Some(thing) => S::of(thing),
        None => None,
    }
}

/// What a name stands for, as a thing of the sort. `Err`: `UnknownName` where the name isn't declared, or is of another sort; or
/// out of memory.
pub fn found<S: Sought>(names: &Names, name: &Str) -> Result<S::Key, LineError>
    ensures { Gives (λ x. x) result (found S.as_sort names.now name.now) }
{
    match known_as::<S>(names, name) {
        Some(id) => Ok(id),
        None => Err(LineError::Refused(Refusal::UnknownName {
            name: name.try_copy()?,
        })),
    }
}

/// What some names stand for, in order. `Err`: that of the first one that is refused; or out of memory.
pub fn all_found<S: Sought>(
    alloc: Global,
    names: &Names,
    wanted: &[Str],
) -> Result<Vec<S::Key>, LineError>
    ensures { Gives (λ v. v.items) result (all_found S.as_sort names.now wanted.now) }
{
    let mut ids = Vec::with_capacity(alloc, wanted.len())?;
    for name in wanted {
        ids.push(found::<S>(names, name)?)?;
    }
    Ok(ids)
}
