use thiserror::Error;

/// Why no window has a size.
#[derive(Clone, Copy, Debug, Drop, Error, PartialEq, Eq)]
pub enum SizeError {
    /// The number of rows is 0 or more than 500.
    #[error("a window has 1 to 500 rows, and not {n}")]
    BadRows { n: u32 },
    /// The number of columns is 0 or more than 500.
    #[error("a window has 1 to 500 columns, and not {n}")]
    BadCols { n: u32 },
}
