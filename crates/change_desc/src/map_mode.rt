/// What a mapped position keeps track of (Reference Manual, MapMode). Where that was deleted, the position has no answer.
#[derive(Clone, Copy, PartialEq, Eq, Debug, Drop)]
pub enum MapMode {
    /// Nothing: each position has an answer.
    Simple,
    /// The text on both sides: there is no answer strictly inside a replaced range.
    TrackDel,
    /// The character before the position.
    TrackBefore,
    /// The character after the position.
    TrackAfter,
}
