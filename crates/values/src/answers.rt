use crate::val::Val;
use listed::Listed;
use transaction::{Annotation, Effect, Spec};

/// What a change guard answers of a transaction (Reference Manual, EditorState.changeFilter).
#[derive(Drop)]
pub enum Guarding {
    /// All changes stay.
    All,
    /// No change stays.
    Nothing,
    /// The changes of these ranges of the start document are dropped, from a place up to a place, in characters.
    Protected(Listed<(u32, u32)>),
}

/// What a transaction filter answers of a transaction (Reference Manual, EditorState.transactionFilter). Specs refer to the
/// start document.
#[derive(Drop)]
pub enum Filtering {
    /// The transaction stays.
    Keep,
    /// These specs stand in its place.
    Instead(Listed<Spec<Val>>),
    /// These specs follow it.
    Also(Listed<Spec<Val>>),
}

/// What an extender adds to a transaction (Reference Manual, EditorState.transactionExtender). Effects refer to the new
/// document.
#[derive(Drop)]
pub struct Extension {
    pub effects: Listed<Effect<Val>>,
    pub annotations: Listed<Annotation>,
}
