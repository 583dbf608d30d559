use configuration::{Dependency, FacetDef};
use ext_tree::{ExtId, ExtIds, Precedence};
use listed::Listed;
use values::Val;

/// An effect kind, a facet, a compartment or a node that is to be declared; what it names stands by its id.
#[derive(Drop)]
pub enum NewThing {
    /// An effect kind, which may have a map of this number.
    Effect(Option<u32>),
    /// A facet, which enables these nodes.
    Facet {
        def: FacetDef,
        enables: ExtIds,
    },
    /// A compartment.
    Compartment,
    /// An input of a facet with a value of its own.
    Input {
        facet: u32,
        value: Val,
    },
    /// An input of a facet that a rule computes.
    Compute {
        facet: u32,
        rule: u32,
        reads: Listed<Dependency>,
    },
    /// Inputs of a facet that a rule computes.
    ComputeN {
        facet: u32,
        rule: u32,
        reads: Listed<Dependency>,
    },
    /// An input of a facet that a rule computes from a field's value.
    From {
        facet: u32,
        field: u32,
        rule: u32,
    },
    /// A field with a first value of its own.
    Init {
        field: u32,
        value: Val,
    },
    /// Nodes together, in this order.
    Group(ExtIds),
    /// A node at a precedence of its own.
    Prec {
        at: Precedence,
        of: ExtId,
    },
    /// The slot of a compartment.
    Slot {
        compartment: u32,
        of: ExtId,
    },
}
