use line_tree::Text;
use selection::Selection;

/// A document with a selection of it.
#[derive(Drop)]
pub struct Scene {
    pub document: Text,
    pub selection: Selection,
}
