ghost use Rattle.std.specs.Prelude.{◌≡◌, IfOk, option_map, option_and_then};
ghost use Rattle.serde_json.specs.View.{view, items_view};
ghost use Rattle.cm_plain.specs.Plain.{datum_of};
ghost use Rattle.script.specs.Reading.{Gives};
ghost use Rattle.script.specs.Values.{value_of, values_of, unless_deep, value_at};

use crate::fields::refused;
use crate::item::Item;
use crate::refusal::LineError;
use cm_plain::{Plain, Str};
use serde_json::Value;
use std::alloc::{AllocError, Global};

/// The value that a JSON value is, if it is one.
#[cycle(value)]
fn value_of(alloc: Global, value: &Value) -> Result<Option<Plain>, AllocError>
    ensures { IfOk result (λ p. option_map datum_of p ≡ value_of (view value.now)) }
{
    match value {
        Value::Null => Ok(Some(Plain::Unit)),
        Value::Bool(b) => Ok(Some(Plain::Bool(*b))),
        Value::Number(n) => Ok(n.as_i64().map(Plain::Int)),
        Value::String(text) => Ok(Some(Plain::Text(Str::of_text(alloc, text.as_str())?))),
        Value::Array(items) => list_of(alloc, items.as_slice()),
        Value::Object(_) => Ok(None),
    }
}

/// The list of the values that these are, if each is one and the list is not too deep.
#[cycle(value)]
fn list_of(alloc: Global, items: &[Value]) -> Result<Option<Plain>, AllocError>
    ensures { IfOk result (λ p. option_map datum_of p ≡ option_and_then unless_deep (values_of (items_view items.now))) }
{
    let mut values = Vec::with_capacity(alloc, items.len())?;
    for item in items {
        match value_of(alloc, item)? {
            Some(value) => values.push(value)?,
            None => return Ok(None),
        }
    }
    Ok(Plain::list(values).ok())
}

/// The plain data that the member of this name is.
#[tactic(auto, unfolding(crate::specs::Values::value_at))]
fn plain(alloc: Global, name: &str, value: &Value) -> Result<Plain, LineError>
    ensures { Gives (λ x. x) result (value_at name.now (view value.now)) }
{
    match value_of(alloc, value)? {
        Some(value) => Ok(value),
        None => refused(alloc, name),
    }
}

/// Plain data: nothing, a truth value, a whole number, a text or a list of plain data.
impl Item for Plain {
    ghost item_of = { value_at };

    fn read(alloc: Global, name: &str, value: &Value) -> Result<Plain, LineError> {
        plain(alloc, name, value)
    }
}
