ghost use Rattle.std.specs.Prelude.{◌≡◌, IfOk};
ghost use Rattle.serde_json.specs.View.{view};
ghost use Rattle.replies.specs.Replies.{range_data, selection_data};

use crate::objects::{members_of, with_member};
use crate::scalar::Scalar::{U32, U64};
use crate::written::{Written, list_value};
use selection::{Range, Selection};
use serde_json::Value;
use std::alloc::{AllocError, Global};

impl Written for Range {
    ghost as_data = { range_data };

    fn value(&self, alloc: Global) -> Result<Value, AllocError> {
        list_value(alloc, &[U32(self.anchor), U32(self.head)])
    }
}

pub(crate) fn selection_value(alloc: Global, selection: &Selection) -> Result<Value, AllocError>
    ensures { IfOk result (λ v. view v ≡ selection_data selection.now) }
{
    let main = selection.main_index() as u64;
    let members = members_of(alloc, &[("main", U64(main))])?;
    let ranges = list_value(alloc, selection.ranges())?;
    Ok(Value::Object(with_member(alloc, members, "ranges", ranges)?))
}
