ghost use Rattle.requests.specs.Requests.{new_state_of};

use cm_plain::Str;
use listed::Listed;
use script::{
    Item, LineError, first_selection, list_or_empty, members, only_fields, text_or_empty,
};
use serde_json::Value;
use std::alloc::Global;
use transaction::SelectionSpec;

/// A state that is to be made (Reference Manual, EditorState.create).
#[derive(Drop)]
pub struct NewState {
    /// The text of its document, not yet cut at its line breaks.
    pub doc: Str,
    /// Its selection, as it was written.
    pub selection: SelectionSpec,
    /// The nodes of its configuration, by name.
    pub extensions: Listed<Str>,
}

impl Item for NewState {
    ghost item_of = { new_state_of };

    #[tactic(auto, unfolding(crate::specs::Requests::new_state_of))]
    fn read(alloc: Global, command: &str, value: &Value) -> Result<NewState, LineError> {
        let members = members(alloc, command, value)?;
        let doc = text_or_empty(alloc, "doc", value)?;
        let selection = first_selection(alloc, value)?;
        let extensions = list_or_empty(alloc, "extensions", value)?;
        only_fields(alloc, &["doc", "selection", "main", "extensions"], members)?;
        Ok(NewState {
            doc,
            selection,
            extensions,
        })
    }
}
