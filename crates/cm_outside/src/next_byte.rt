/// What a call of `LineReader::read_byte` found.
#[derive(Clone, Copy, Debug, PartialEq, Eq)]
pub enum NextByte {
    /// The next byte.
    Byte(u8),
    /// The source gave the end of input, and no byte is left.
    End,
    /// The source failed.
    Failed,
    /// The source gave one byte more than the limit, and no byte is left within it.
    Budget,
}
