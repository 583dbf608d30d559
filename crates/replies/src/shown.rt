use cm_plain::Plain;
use decoration::Kind;
use listed::Listed;

/// A value of a facet or a field, as a reply shows it.
#[derive(Drop)]
pub enum Shown {
    /// Plain data.
    Plain(Plain),
    /// The ranges of a set of decorations, in order.
    Ranges(Listed<ShownRange>),
    /// Sets of decorations, in order.
    Layers(Listed<Listed<ShownRange>>),
    /// A history: how many groups can be undone, and how many redone.
    History { done: u64, undone: u64 },
    /// A field that the state doesn't have.
    Absent,
}

/// Where a decoration stands, in characters, and what it does.
#[derive(Clone, Copy, Drop)]
pub struct ShownRange {
    pub from: u32,
    pub kind: Kind,
    pub to: u32,
}
