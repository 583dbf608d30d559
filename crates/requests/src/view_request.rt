ghost use Rattle.requests.specs.Requests.{view_of};

use script::{Item, LineError, members, number_member, only_fields};
use serde_json::Value;
use std::alloc::Global;

/// The size of a window that is to be made. Whether there is such a window is asked later.
#[derive(Clone, Copy, Drop)]
pub struct ViewRequest {
    pub rows: u32,
    pub cols: u32,
}

impl Item for ViewRequest {
    ghost item_of = { view_of };

    #[tactic(auto, unfolding(crate::specs::Requests::view_of))]
    fn read(alloc: Global, command: &str, value: &Value) -> Result<ViewRequest, LineError> {
        let members = members(alloc, command, value)?;
        let rows = number_member(alloc, "rows", value)?;
        let cols = number_member(alloc, "cols", value)?;
        only_fields(alloc, &["rows", "cols"], members)?;
        Ok(ViewRequest { rows, cols })
    }
}
