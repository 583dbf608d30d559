// What a rule declares that it reads.

/// What a rule declares that it reads. (Reference Manual, Facet.compute, deps.)
#[derive(Clone, Copy, Debug)]
pub enum Dependency {
    /// The document.
    Doc,
    /// The selection.
    Selection,
    /// The value of a facet, by its id.
    Facet(u32),
    /// The value of a field, by its id.
    Field(u32),
}
