use thiserror::Error;

/// Why a decoration can't be placed. Places are in characters.
#[derive(Clone, Copy, Debug, PartialEq, Eq, Drop, Error)]
pub enum DecoError {
    /// The range ends before it starts; one range alone has index 0.
    #[error("range {index} ends before it starts")]
    Reversed { index: usize },
    /// A mark over no characters.
    #[error("a mark is empty")]
    EmptyMark,
    /// A widget or a line decoration over characters.
    #[error("a widget or a line decoration isn't empty")]
    NotEmpty,
    /// A replacement of no characters.
    #[error("a replacement is empty")]
    BadReplace,
    /// No line starts at the place.
    #[error("no line starts at {pos}")]
    NotLineStart { pos: u32 },
}
