use ext_tree::ExtId;

/// What a name stands for.
#[derive(Clone, Copy, Debug, Drop)]
pub enum Named {
    /// The document, which rules may read.
    Doc,
    /// The selection, which rules may read.
    Selection,
    /// A compartment, by its id.
    Compartment(u32),
    /// An effect kind, by its id.
    Effect(u32),
    /// A facet, by its id.
    Facet(u32),
    /// A field and its node, by their ids.
    Field { field: u32, node: ExtId },
    /// Any other node, by its id.
    Node(ExtId),
}
