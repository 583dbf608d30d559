use history::History;
use line_tree::Text;
use selection::Selection;

/// What a command looks at: a document with its selection, whether it is read only (Reference Manual, EditorState.readOnly), its
/// history, if it has one, and the time of the command in milliseconds, if it is to be told.
#[derive(Clone, Copy, Drop)]
pub struct EditScene<'a> {
    pub doc: &'a Text,
    pub selection: &'a Selection,
    pub read_only: bool,
    pub history: Option<&'a History>,
    pub time: Option<i64>,
}
