ghost use Rattle.std.specs.Prelude.{◌≡◌, IfOk};
ghost use Rattle.serde_json.specs.View.{view};
ghost use Rattle.replies.specs.Screens.{cursor_data, row_data, run_data, screen_data};

use crate::objects::with_member;
use crate::scalar::Scalar::{Text, U32};
use crate::shown_screen::{ShownCursor, ShownRun, ShownScreen};
use crate::written::{Written, list_value};
use listed::Listed;
use serde_json::{Map, Value};
use std::alloc::{AllocError, Global};

impl Written for ShownRun {
    ghost as_data = { run_data };

    fn value(&self, alloc: Global) -> Result<Value, AllocError> {
        list_value(alloc, &[Text(&self.text), Text(&self.codes)])
    }
}

impl Written for Listed<ShownRun> {
    ghost as_data = { row_data };

    fn value(&self, alloc: Global) -> Result<Value, AllocError> {
        list_value(alloc, self.as_slice())
    }
}

fn cursor_value(alloc: Global, cursor: ShownCursor) -> Result<Value, AllocError>
    ensures { IfOk result (λ v. view v ≡ cursor_data cursor) }
{
    list_value(alloc, &[U32(cursor.row), U32(cursor.column)])
}

pub(crate) fn screen_value(alloc: Global, screen: &ShownScreen) -> Result<Value, AllocError>
    ensures { IfOk result (λ v. view v ≡ screen_data screen.now) }
{
    let cursor = cursor_value(alloc, screen.cursor)?;
    let members = with_member(alloc, Map::new(alloc), "cursor", cursor)?;
    let rows = list_value(alloc, screen.rows.as_slice())?;
    Ok(Value::Object(with_member(alloc, members, "rows", rows)?))
}
