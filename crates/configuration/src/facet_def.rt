// The definition of a facet.

/// The definition of a facet, by rule numbers. What it enables stands in the links. (Reference Manual, Facet.define.)
#[derive(Clone, Copy, Debug)]
pub struct FacetDef {
    /// The rule that combines the inputs to the value.
    pub combine: u32,
    /// The rule that compares two inputs.
    pub compare_input: u32,
    /// The rule that compares two values.
    pub compare: u32,
    /// Whether computed inputs are refused.
    pub is_static: bool,
}
