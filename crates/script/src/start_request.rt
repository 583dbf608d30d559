use cm_plain::Str;
use transaction::SelectionSpec;

/// What `start` asks for.
#[derive(Drop)]
pub struct StartRequest {
    /// The text of the new document, not yet cut at its line breaks.
    pub doc: Str,
    /// Its selection, as it was written.
    pub selection: SelectionSpec,
}
