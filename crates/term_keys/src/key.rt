/// Where a move goes.
#[derive(Clone, Copy, Debug, PartialEq, Eq)]
pub enum Move {
    Left,
    Right,
    Up,
    Down,
    LineStart,
    LineEnd,
    DocStart,
    DocEnd,
}

/// A key that was pressed, or a control character that stands for a command.
#[derive(Clone, Copy, Debug, PartialEq, Eq)]
pub enum Key {
    /// A character that is typed, a tab among them.
    Char(char),
    Newline,
    DeleteBack,
    DeleteForward,
    /// A move of the cursor.
    Move(Move),
    /// The same move, by which the selection is extended.
    Extend(Move),
    SelectAll,
    Undo,
    Redo,
    Save,
    Quit,
}
