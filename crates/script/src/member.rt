ghost use Rattle.std.specs.Prelude.{[]};
ghost use Rattle.serde_json.specs.View.{view};
ghost use Rattle.script.specs.Reading.{Gives, defaulted, list_of, number_member, optional, required_as, text_at, text_member};

use crate::fields::required_member;
use crate::item::Item;
use crate::refusal::LineError;
use cm_plain::Str;
use listed::Listed;
use serde_json::Value;
use std::alloc::Global;

/// What the member of this name is, which has to be there. `Err`: it is missing, or it is no such item; or out of memory.
pub fn required<T: Item>(alloc: Global, name: &str, value: &Value) -> Result<T, LineError>
    ensures { Gives (λ x. x) result (required_as name.now T.item_of (view value.now)) }
{
    let member = required_member(alloc, name, value)?;
    T::read(alloc, name, member)
}

/// What the member of this name is, or `otherwise` where there is no such member. `Err`: it is no such item; or out of
/// memory.
pub fn defaulted<T: Item>(
    alloc: Global,
    name: &str,
    value: &Value,
    otherwise: T,
) -> Result<T, LineError>
    ensures { Gives (λ x. x) result (defaulted name.now T.item_of otherwise (view value.now)) }
{
    match value.get(name) {
        Some(member) => T::read(alloc, name, member),
        None => Ok(otherwise),
    }
}

/// What the member of this name is, if there is such a member. `Err`: it is no such item; or out of memory.
pub fn optional<T: Item>(alloc: Global, name: &str, value: &Value) -> Result<Option<T>, LineError>
    ensures { Gives (λ x. x) result (optional name.now T.item_of (view value.now)) }
{
    match value.get(name) {
        Some(member) => Ok(Some(T::read(alloc, name, member)?)),
        None => Ok(None),
    }
}

/// The list that the member of this name is, or the empty one where there is no such member. `Err`: it is none, or the first
/// item that is none; or out of memory.
pub fn list_or_empty<T: Item>(
    alloc: Global,
    name: &str,
    value: &Value,
) -> Result<Listed<T>, LineError>
    ensures { Gives (λ x. x) result (defaulted name.now (list_of T.item_of) [] (view value.now)) }
{
    defaulted(alloc, name, value, Listed::empty(alloc))
}

/// The text that the member of this name is, which has to be there. `Err`: it is missing or no text, or out of memory.
#[tactic(auto, unfolding(crate::specs::Reading::text_member))]
pub fn text_member(alloc: Global, name: &str, value: &Value) -> Result<Str, LineError>
    ensures { Gives (λ x. x) result (text_member name.now (view value.now)) }
{
    required(alloc, name, value)
}

/// The whole number from 0 that the member of this name is, which has to be there. `Err`: it is missing, or no number that
/// fits 32 bits, or out of memory.
#[tactic(auto, unfolding(crate::specs::Reading::number_member))]
pub fn number_member(alloc: Global, name: &str, value: &Value) -> Result<u32, LineError>
    ensures { Gives (λ x. x) result (number_member name.now (view value.now)) }
{
    required(alloc, name, value)
}

/// The text that the member of this name is, or the empty one where there is no such member. `Err`: it is no text, or out of
/// memory.
pub fn text_or_empty(alloc: Global, name: &str, value: &Value) -> Result<Str, LineError>
    ensures { Gives (λ x. x) result (defaulted name.now text_at [] (view value.now)) }
{
    defaulted(alloc, name, value, Str::empty(alloc))
}

/// The text that the member of this name is, if there is such a member. `Err`: it is no text, or out of memory.
pub fn text_if_there(alloc: Global, name: &str, value: &Value) -> Result<Option<Str>, LineError>
    ensures { Gives (λ x. x) result (optional name.now text_at (view value.now)) }
{
    optional(alloc, name, value)
}
