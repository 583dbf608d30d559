ghost use Rattle.requests.specs.Requests.{open_of};

use cm_plain::Str;
use listed::Listed;
use script::{Item, LineError, list_or_empty, members, only_fields, text_member};
use serde_json::Value;
use std::alloc::Global;

/// A state that is to be made of a file's text.
#[derive(Drop)]
pub struct OpenRequest {
    /// The file by name.
    pub file: Str,
    /// The nodes of its configuration, by name.
    pub extensions: Listed<Str>,
}

impl Item for OpenRequest {
    ghost item_of = { open_of };

    #[tactic(auto, unfolding(crate::specs::Requests::open_of))]
    fn read(alloc: Global, command: &str, value: &Value) -> Result<OpenRequest, LineError> {
        let members = members(alloc, command, value)?;
        let file = text_member(alloc, "file", value)?;
        let extensions = list_or_empty(alloc, "extensions", value)?;
        only_fields(alloc, &["file", "extensions"], members)?;
        Ok(OpenRequest { file, extensions })
    }
}
