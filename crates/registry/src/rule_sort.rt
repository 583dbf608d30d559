// The sorts of rules that definitions name.

/// The sorts of rules that definitions name: numbers of each sort run from 1.
#[derive(Clone, Copy, Debug, PartialEq, Eq)]
pub enum RuleSort {
    Combine,
    Compare,
    Compute,
    ComputeN,
    Create,
    Update,
    EffectMap,
}
