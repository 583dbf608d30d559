use crate::change_set::ChangeSet;

/// The two halves of a change set that a filter gives, both over the old document.
#[derive(Drop)]
pub struct Filtered {
    /// What stays.
    pub kept: ChangeSet,
    /// What was dropped.
    pub dropped: ChangeSet,
}
