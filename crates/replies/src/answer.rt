use crate::mapped::Mapped;
use crate::shown::Shown;
use crate::shown_screen::ShownScreen;
use change_set::InsertedText;
use script::Refusal;
use selection::Selection;

/// What a command that was accepted gives.
#[derive(Drop)]
pub enum Answer {
    /// Nothing beside that it was done.
    Nothing,
    /// The length of the document, in characters.
    Length(u32),
    /// Whether a command did anything, and the length of the document after it, in characters.
    Done {
        done: bool,
        length: u32,
    },
    /// How many bytes were written.
    Bytes(u64),
    /// The text of the document.
    Text(InsertedText),
    /// The selection of the document.
    Selection(Selection),
    /// The value of a facet or a field.
    Value(Shown),
    /// What `map` made.
    Mapped(Mapped),
    /// What the window shows.
    Screen(ShownScreen),
    /// The counts of a session.
    Summary(Summary),
    /// How many updates an authority took.
    Version(u32),
    /// The number of a message, counted from 0.
    Message(u32),
    /// A client: how many of its updates are not confirmed, its text, and how many of the authority's updates it has seen.
    Client {
        pending: u64,
        text: InsertedText,
        version: u32,
    },
    /// An authority: its text, and how many updates it took.
    Authority {
        text: InsertedText,
        version: u32,
    },
}

/// The counts of a session.
#[derive(Clone, Copy, Drop)]
pub struct Summary {
    /// The length of the document, in characters.
    pub length: u32,
    /// How many lines the document has.
    pub lines: u64,
    /// How many rows of the window show a line.
    pub rows: u64,
    /// How many transactions were accepted since the state was made.
    pub transactions: u64,
}

/// What is answered to a line.
#[derive(Drop)]
pub enum Reply {
    /// The command was done.
    Ok(Answer),
    /// The line was refused, and nothing was changed.
    No(Refusal),
}
