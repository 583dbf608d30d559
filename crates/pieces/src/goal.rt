use crate::edge::Edge;

/// Which pieces of a block are wanted: all, those that a window shows, or the one at the cursor's place, where a tab stands
/// for 1 to 16 columns.
#[derive(Clone, Copy, Drop)]
pub(crate) enum Goal {
    Whole,
    Shown(Edge),
    At { tab: u8, pos: u32 },
}
