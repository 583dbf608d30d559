// The definition of a field.
use crate::dependency::Dependency;
use listed::Listed;

/// The definition of a field, by rule numbers. What it provides stands in the links. (Reference Manual,
/// StateField.define.)
#[derive(Debug, Drop)]
pub struct FieldDef {
    /// The rule that creates the first value.
    pub create: u32,
    /// The rule that updates the value.
    pub update: u32,
    /// The rule that compares two values.
    pub compare: u32,
    /// What creator and updater read.
    pub reads: Listed<Dependency>,
    /// The ids of the effect kinds that the updater is shown.
    pub listens: Listed<u32>,
}
