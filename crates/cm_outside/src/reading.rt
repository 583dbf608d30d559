/// The greatest length of a line in bytes, without its LF.
pub const MAX_LINE: usize = 1_048_576;

/// What a call of `LineReader::read_line` found.
#[derive(Debug, Drop)]
pub enum Reading {
    /// The bytes of a line, without its LF.
    Line(Vec<u8>),
    /// A line of more than `MAX_LINE` bytes, which was passed over to its end.
    TooLong,
    /// The input was read to its end, and no byte of a line is left.
    End,
    /// The source failed before the line's end.
    Failed,
    /// The source gave one byte more than the limit, and no whole line is left among the bytes within it.
    Budget,
}
