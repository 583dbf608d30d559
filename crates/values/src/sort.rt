/// The sorts of rules.
#[derive(Clone, Copy, PartialEq, Eq, Debug, Drop)]
pub enum Sort {
    Combine,
    Compare,
    Compute,
    ComputeN,
    Create,
    Update,
    EffectMap,
    ChangeGuard,
    TrFilter,
    Extender,
}

/// A kit has no rule of a number: the first sort of which one is missing, and the least such number.
#[derive(Clone, Copy, PartialEq, Eq, Debug, Drop, thiserror::Error)]
#[error("no rule {number} of sort {sort:?}")]
pub struct Gap {
    pub sort: Sort,
    pub number: u32,
}
