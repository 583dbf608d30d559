ghost use Rattle.std.specs.Prelude.{◌≡◌};
ghost use Rattle.script.specs.declared.refusal.LineError.TheVariants.{NoMemory};

use crate::declaration_refusal::DeclarationRefusal;
use crate::extension_refusal::ExtensionRefusal;
use crate::file_refusal::FileRefusal;
use crate::window_refusal::WindowRefusal;
use change_set::ChangesError;
use cm_plain::Str;
use selection::SelectionError;
use std::alloc::{AllocError, AllocFailed};
use thiserror::Error;
use transaction::TransactionError;

/// Why a line is refused. A refused line changes nothing.
#[derive(Debug, Drop)]
pub enum Refusal {
    /// The line has more than 1,048,576 bytes.
    LineTooLong,
    /// The bytes of the line aren't UTF-8.
    NotUtf8,
    /// No JSON value can be read from the line.
    NotJson,
    /// The value is no object with exactly one member (then the field is empty), or that member's name, the field,
    /// isn't a command.
    NotCommand {
        field: Str,
    },
    /// The member named is missing, of a wrong kind or out of its range, or it is no field of the object. Where the
    /// argument of a command is itself of a wrong kind, the field is the command's name.
    BadValue {
        field: Str,
    },
    /// The name isn't one of those that the field takes.
    UnknownName {
        name: Str,
    },
    /// The name that is to be declared is taken.
    NameTaken {
        name: Str,
    },
    /// The command needs a document, and none was started.
    NoSession,
    /// The change of this index, from 0, has `from` past `to` or `to` past the document's length `len`, in characters.
    BadRange {
        index: u64,
        from: u32,
        to: u32,
        len: u32,
    },
    /// A set of changes is over a text of `have` characters where one of `want` is changed.
    LengthMismatch {
        want: u32,
        have: u32,
    },
    /// The changed text would have `len` characters, which is more than `max`. Of the texts after each change of a
    /// list, this is the first one that is too long.
    TooLong {
        len: u64,
        max: u32,
    },
    /// A selection was given that has no range.
    NoRanges,
    /// A selection has `count` ranges, and the main one was to be that of index `main`, from 0.
    BadMain {
        main: usize,
        count: usize,
    },
    /// A selection has a range that ends at `pos`, past the document's length `len`, in characters. Of such ranges, this
    /// is the first one that was given.
    SelectionOutside {
        pos: u32,
        len: u32,
    },
    /// No effect kind has this id. It doesn't come: a line has no effects.
    UnknownEffect {
        id: u32,
    },
    /// No compartment has this id. It doesn't come: a line has no effects.
    UnknownCompartment {
        id: u32,
    },
    /// A declaration whose names are as they should be is refused.
    Declaration(DeclarationRefusal),
    /// Extensions that are all known make no configuration.
    Extensions(ExtensionRefusal),
    /// A file can't be opened.
    File(FileRefusal),
    /// There is no window of the size that is asked for.
    Window(WindowRefusal),
    /// A client's updates were sent at another version than the authority's, which is given.
    Stale {
        version: u32,
    },
    /// Updates from this position of the authority's list on came to a client at an earlier version, which is given.
    Ahead {
        from: u32,
        version: u32,
    },
}

/// Why a line is not carried out.
#[derive(Debug, Drop, Error)]
pub enum LineError {
    /// Out of memory.
    #[error("out of memory")]
    NoMemory,
    /// The line is refused.
    #[error("the line is refused")]
    Refused(Refusal),
}

impl From<AllocError> for LineError {
    ghost from_gives = { λ _ e. e ≡ NoMemory };

    fn from(_error: AllocError) -> LineError {
        LineError::NoMemory
    }
}

impl<T: Drop> From<AllocFailed<T>> for LineError {
    ghost from_gives = { λ _ e. e ≡ NoMemory };

    fn from(_error: AllocFailed<T>) -> LineError {
        LineError::NoMemory
    }
}

impl From<ChangesError> for LineError {
    ghost use Rattle.script.specs.Refused.{changes_refusal, line_error};

    ghost from_gives = { λ error e. e ≡ line_error (changes_refusal error) };

    fn from(error: ChangesError) -> LineError {
        match error {
            ChangesError::BadRange {
                index,
                from,
                to,
                len,
            } => LineError::Refused(Refusal::BadRange {
                index: index as u64,
                from,
                to,
                len,
            }),
            ChangesError::LengthMismatch { want, have } => {
                LineError::Refused(Refusal::LengthMismatch { want, have })
            }
            ChangesError::TooLong { len, max } => {
                LineError::Refused(Refusal::TooLong { len, max })
            }
            ChangesError::NoMemory => LineError::NoMemory,
        }
    }
}

impl From<SelectionError> for LineError {
    ghost use Rattle.script.specs.Refused.{selection_refusal, line_error};

    ghost from_gives = { λ error e. e ≡ line_error (selection_refusal error) };

    fn from(error: SelectionError) -> LineError {
        match error {
            SelectionError::NoRanges => LineError::Refused(Refusal::NoRanges),
            SelectionError::BadMain { main, count } => {
                LineError::Refused(Refusal::BadMain { main, count })
            }
            SelectionError::NoMemory => LineError::NoMemory,
        }
    }
}

impl From<TransactionError> for LineError {
    ghost use Rattle.script.specs.Refused.{specs_refusal, line_error};

    ghost from_gives = { λ error e. e ≡ line_error (specs_refusal error) };

    fn from(error: TransactionError) -> LineError {
        match error {
            TransactionError::BadRange {
                index,
                from,
                to,
                len,
            } => LineError::Refused(Refusal::BadRange {
                index: index as u64,
                from,
                to,
                len,
            }),
            TransactionError::LengthMismatch { want, have } => {
                LineError::Refused(Refusal::LengthMismatch { want, have })
            }
            TransactionError::TooLong { len, max } => {
                LineError::Refused(Refusal::TooLong { len, max })
            }
            TransactionError::NoRanges => LineError::Refused(Refusal::NoRanges),
            TransactionError::BadMain { main, count } => {
                LineError::Refused(Refusal::BadMain { main, count })
            }
            TransactionError::SelectionOutside { pos, len } => {
                LineError::Refused(Refusal::SelectionOutside { pos, len })
            }
            TransactionError::UnknownEffect { id } => {
                LineError::Refused(Refusal::UnknownEffect { id })
            }
            TransactionError::UnknownCompartment { id } => {
                LineError::Refused(Refusal::UnknownCompartment { id })
            }
            TransactionError::NoMemory => LineError::NoMemory,
        }
    }
}
