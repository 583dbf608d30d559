// What a field provides.

/// An input of a facet that a rule computes from the value of the field that provides it. (Reference Manual,
/// StateField.define, provide; Facet.from.)
#[derive(Clone, Copy, Debug)]
pub struct Provided {
    pub facet: u32,
    /// The rule, a computer that is shown the field's value alone.
    pub rule: u32,
}
