/// How a step of a document bears on its history.
#[derive(Clone, Copy, Drop)]
pub enum Case {
    /// The newest Change that can be undone is undone.
    Undo,
    /// The newest Change that was undone is done again.
    Redo,
    /// The selection goes back to the newest one that was left.
    UndoSelection,
    /// The selection goes to the newest one that was gone back from.
    RedoSelection,
    /// There are no changes and no inverted effects.
    Unchanged,
    /// There are some that are not to be recorded.
    Unrecorded,
    /// There are some to be recorded.
    Recorded,
}
