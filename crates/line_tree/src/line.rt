/// A line of a text: its number, which counts from 1, and the places in characters where it starts and ends, without
/// its break.
#[derive(Clone, Copy, Debug, PartialEq, Eq, Drop)]
pub struct Line {
    pub number: u64,
    pub from: u32,
    pub to: u32,
}
