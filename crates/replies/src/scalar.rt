ghost use Rattle.replies.specs.Scalars.{scalar_data};

use crate::texts::inserted_value;
use crate::written::Written;
use change_set::InsertedText;
use cm_plain::Str;
use serde_json::Value;
use std::alloc::{AllocError, Global};

/// What is written as a value that is neither a list nor an object.
#[derive(Clone, Copy)]
pub(crate) enum Scalar<'a> {
    Null,
    Bool(bool),
    U32(u32),
    U64(u64),
    I32(i32),
    /// A word of the replies themselves.
    Word(&'a str),
    /// A text from a script.
    Text(&'a Str),
    /// A text of a document.
    Inserted(&'a InsertedText),
}

impl<'a> Written for Scalar<'a> {
    ghost as_data = { scalar_data };

    fn value(&self, alloc: Global) -> Result<Value, AllocError> {
        match self {
            Scalar::Null => Ok(Value::Null),
            Scalar::Bool(flag) => Ok(Value::Bool(*flag)),
            Scalar::U32(number) => Ok(Value::from(*number)),
            Scalar::U64(number) => Ok(Value::from(*number)),
            Scalar::I32(number) => Ok(Value::from(*number)),
            Scalar::Word(word) => Value::try_from_str(alloc, word),
            Scalar::Text(text) => text.value(alloc),
            Scalar::Inserted(text) => inserted_value(text),
        }
    }
}
