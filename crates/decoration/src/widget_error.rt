use thiserror::Error;

/// Why a widget can't be made.
#[derive(Clone, Copy, Debug, PartialEq, Eq, Drop, Error)]
pub enum WidgetError {
    /// The side is less than -10000 or more than 10000.
    #[error("the side {side} isn't between -10000 and 10000")]
    BadSide { side: i32 },
    /// Out of memory.
    #[error("out of memory")]
    NoMemory,
}
