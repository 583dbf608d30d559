/// A block: its number, which counts from 1, the numbers of its first and its last line, and the places in characters
/// where it starts and ends.
#[derive(Clone, Copy, Drop)]
pub struct Block {
    pub number: u64,
    pub first: u64,
    pub last: u64,
    pub from: u32,
    pub to: u32,
}
