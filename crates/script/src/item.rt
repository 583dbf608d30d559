ghost use Rattle.std.specs.Prelude.{ℕ, List, Result};
ghost use Rattle.serde_json.specs.Data.{Data};
ghost use Rattle.serde_json.specs.View.{view, items_view};
ghost use Rattle.script.specs.declared.refusal.Refusal.{Refusal};
ghost use Rattle.script.specs.Reading.{Gives, each, flag_at, integer_at, list_of, number_at, side_at, text_at};

use crate::fields::{flag, integer, items, position, side, text};
use crate::refusal::LineError;
use cm_plain::Str;
use listed::Listed;
use serde_json::Value;
use std::alloc::Global;

/// What a member of an object, or an item of a list, is read as.
pub trait Item: Drop {
    /// What is read from a value, where the member that it is, or that has the list, is of this name.
    ghost item_of: { List ℕ → Data → Result Self Refusal };

    /// The item that a value is. `Err`: it is none, or out of memory.
    fn read(alloc: Global, name: &str, value: &Value) -> Result<Self, LineError>
        ensures { Gives (λ x. x) result (item_of name.now (view value.now)) };
}

/// A whole number from 0 that fits 32 bits.
impl Item for u32 {
    ghost item_of = { number_at };

    fn read(alloc: Global, name: &str, value: &Value) -> Result<u32, LineError> {
        position(alloc, name, value)
    }
}

/// A whole number with a sign that fits 32 bits.
impl Item for i32 {
    ghost item_of = { side_at };

    fn read(alloc: Global, name: &str, value: &Value) -> Result<i32, LineError> {
        side(alloc, name, value)
    }
}

/// A whole number of 64 bits with a sign.
impl Item for i64 {
    ghost item_of = { integer_at };

    fn read(alloc: Global, name: &str, value: &Value) -> Result<i64, LineError> {
        integer(alloc, name, value)
    }
}

impl Item for bool {
    ghost item_of = { flag_at };

    fn read(alloc: Global, name: &str, value: &Value) -> Result<bool, LineError> {
        flag(alloc, name, value)
    }
}

impl Item for Str {
    ghost item_of = { text_at };

    fn read(alloc: Global, name: &str, value: &Value) -> Result<Str, LineError> {
        text(alloc, name, value)
    }
}

fn read_each<T: Item>(alloc: Global, name: &str, items: &[Value]) -> Result<Vec<T>, LineError>
    ensures { Gives (λ v. v.items) result (each (T.item_of name.now) (items_view items.now)) }
{
    let mut list = Vec::with_capacity(alloc, items.len())?;
    for item in items {
        list.push(T::read(alloc, name, item)?)?;
    }
    Ok(list)
}

/// The list that a value is, which is the member of this name. `Err`: it is none, or the first item that is none; or out of memory.
#[tactic(auto, unfolding(crate::specs::Reading::list_of))]
pub fn list<T: Item>(alloc: Global, name: &str, value: &Value) -> Result<Listed<T>, LineError>
    ensures { Gives (λ x. x) result (list_of T.item_of name.now (view value.now)) }
{
    let items = items(alloc, name, value)?;
    let list = read_each(alloc, name, items)?;
    Ok(Listed::new(list))
}

impl<T: Item> Item for Listed<T> {
    ghost item_of = { list_of T.item_of };

    fn read(alloc: Global, name: &str, value: &Value) -> Result<Listed<T>, LineError> {
        list(alloc, name, value)
    }
}
