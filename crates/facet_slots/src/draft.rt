use crate::kept::Kept;
use crate::scene_flags::SceneFlags;

/// A new state as far as it was found, and whether the document and the selection are flagged.
#[derive(Drop)]
pub struct Draft {
    pub kept: Kept,
    pub moved: SceneFlags,
}
