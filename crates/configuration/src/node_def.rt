// The definition of a node.
use crate::dependency::Dependency;
use listed::Listed;

/// The definition of a node of the arena, `V` being the type of values.
#[derive(Debug, Drop)]
pub enum NodeDef<V> {
    /// No leaf: a group, a wrapper or a slot.
    Branch,
    /// An input with a value of its own. (Reference Manual, Facet.of.)
    Of(V),
    /// An input that a rule computes from what it reads. (Reference Manual, Facet.compute.)
    Compute {
        rule: u32,
        reads: Listed<Dependency>,
    },
    /// Several inputs that a rule computes from what it reads. (Reference Manual, Facet.computeN.)
    ComputeN {
        rule: u32,
        reads: Listed<Dependency>,
    },
    /// An input that a rule computes from the value of a field. (Reference Manual, Facet.from.)
    From {
        field: u32,
        rule: u32,
    },
    /// A field.
    Field,
    /// The first value that an init gives a field. (Reference Manual, StateField.init.)
    Init(V),
}
