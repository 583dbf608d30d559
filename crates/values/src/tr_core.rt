use crate::scene::Scene;
use change_set::ChangeSet;
use cm_plain::KeptEffect;
use listed::Listed;
use transaction::Annotation;

/// What all rules are shown of a transaction: everything but the effects, of which a field is shown only those that it listens to.
#[derive(Drop)]
pub(crate) struct TrCore {
    /// The changes of the start document.
    pub(crate) changes: ChangeSet,
    pub(crate) start: Scene,
    pub(crate) end: Scene,
    /// Whether the new selection was given.
    pub(crate) is_given: bool,
    /// What undoes the transaction's effects, in the start document (Reference Manual, invertedEffects).
    pub(crate) inverted: Listed<KeptEffect>,
    /// All of its annotations, in order.
    pub(crate) annotations: Listed<Annotation>,
}
