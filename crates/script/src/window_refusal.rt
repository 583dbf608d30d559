/// Why there is no window of a size. The number is the one that was asked for.
#[derive(Debug, Drop)]
pub enum WindowRefusal {
    /// The number of rows is 0 or too great.
    BadRows { n: u32 },
    /// The number of columns is 0 or too great.
    BadCols { n: u32 },
}
