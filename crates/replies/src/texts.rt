ghost use Rattle.std.specs.Prelude.{◌≡◌, IfOk, encode_utf8_all};
ghost use Rattle.serde_json.specs.Data.{string};
ghost use Rattle.serde_json.specs.View.{view};

use crate::written::Written;
use change_set::InsertedText;
use cm_plain::Str;
use serde_json::Value;
use std::alloc::{AllocError, Global};

pub(crate) fn inserted_value(text: &InsertedText) -> Result<Value, AllocError>
    ensures { IfOk result (λ v. view v ≡ string (encode_utf8_all text.now)) }
{
    Ok(Value::String(text.text().text()?))
}

impl Written for Str {
    ghost as_data = { λ text. string (encode_utf8_all text) };

    fn value(&self, _alloc: Global) -> Result<Value, AllocError> {
        Ok(Value::String(self.text()?))
    }
}
