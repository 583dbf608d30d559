use decoration::Layers;
use line_tree::Text;
use selection::Selection;
use viewport::Viewport;

/// What a screen shows: a document with its selection and its decorations, a tab size from 1 to 16, and a window on it.
#[derive(Clone, Copy, Drop)]
pub struct View<'a> {
    pub doc: &'a Text,
    pub selection: &'a Selection,
    pub layers: &'a Layers,
    pub tab: u8,
    pub window: &'a Viewport,
}
