/// Whether the document changed, and whether the selection did.
#[derive(Clone, Copy, Drop)]
pub struct SceneFlags {
    pub document: bool,
    pub selection: bool,
}
