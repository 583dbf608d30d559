ghost use Rattle.std.specs.Prelude.{◌≡◌, map};
ghost use Rattle.std.specs.List.{list_any};
ghost use Rattle.std.specs.Str.{bytes_eq};
ghost use Rattle.serde_json.specs.View.{view, items_view, members_view};
ghost use Rattle.script.specs.Reading.{Gives, bad, required, text_at, number_at, side_at, items_at, item_at, no_item_at, members_at, only, flag_at, integer_at};

use crate::refusal::{LineError, Refusal};
use cm_plain::Str;
use serde_json::{Map, Value};
use std::alloc::Global;

/// The refusal of the member of this name. `Err`: it, or out of memory.
pub fn refused<T>(alloc: Global, name: &str) -> Result<T, LineError>
    ensures { Gives (λ x. x) result (bad name.now) }
{
    Err(LineError::Refused(Refusal::BadValue {
        field: Str::of_text(alloc, name)?,
    }))
}

/// The value of the member of this name, which has to be there. `Err`: it is missing, or out of memory.
#[tactic(auto, unfolding(crate::specs::Reading::required))]
pub fn required_member<'v>(
    alloc: Global,
    name: &str,
    value: &'v Value,
) -> Result<&'v Value, LineError>
    ensures { Gives (λ v. view v.now) result (required name.now (view value.now)) }
{
    match value.get(name) {
        Some(member) => Ok(member),
        None => refused(alloc, name),
    }
}

#[tactic(auto, unfolding(crate::specs::Reading::text_at))]
pub(crate) fn text(alloc: Global, name: &str, value: &Value) -> Result<Str, LineError>
    ensures { Gives (λ x. x) result (text_at name.now (view value.now)) }
{
    match value.as_str() {
        Some(text) => Ok(Str::of_text(alloc, text)?),
        None => refused(alloc, name),
    }
}

#[tactic(auto, unfolding(crate::specs::Reading::number_at))]
pub(crate) fn position(alloc: Global, name: &str, value: &Value) -> Result<u32, LineError>
    ensures { Gives (λ x. x) result (number_at name.now (view value.now)) }
{
    match value.as_u64() {
        Some(n) if n < 1 << 32 => Ok(n as u32),
        _ => refused(alloc, name),
    }
}

#[tactic(auto, unfolding(crate::specs::Reading::items_at))]
pub(crate) fn items<'v>(
    alloc: Global,
    name: &str,
    value: &'v Value,
) -> Result<&'v Vec<Value>, LineError>
    ensures { Gives (λ v. items_view v.now.items) result (items_at name.now (view value.now)) }
{
    match value.as_array() {
        Some(items) => Ok(items),
        None => refused(alloc, name),
    }
}

/// The members of a value, which has to be an object. `Err`: it is none, and the member of this name, whose value it is, is
/// refused; or out of memory.
#[tactic(auto, unfolding(crate::specs::Reading::members_at))]
pub fn members<'v>(
    alloc: Global,
    name: &str,
    value: &'v Value,
) -> Result<&'v Map<String, Value>, LineError>
    ensures { Gives (λ m. members_view m.now.entries) result (members_at name.now (view value.now)) }
{
    match value.as_object() {
        Some(members) => Ok(members),
        None => refused(alloc, name),
    }
}

/// Each member's name is among these. `Err`: the first one in byte order that isn't is refused; or out of memory.
#[tactic(auto, unfolding(crate::specs::Reading::only))]
pub fn only_fields(
    alloc: Global,
    names: &[&str],
    members: &Map<String, Value>,
) -> Result<(), LineError>
    ensures { Gives (λ x. x) result (only (map (λ n. n.now) names.now) (members_view members.now.entries)) }
{
    for (name, _) in members {
        if !is_among(name.as_str(), names) {
            return refused(alloc, name.as_str());
        }
    }
    Ok(())
}

pub(crate) fn is_among(name: &str, names: &[&str]) -> bool
    ensures { result ≡ list_any (bytes_eq name.now) (map (λ n. n.now) names.now) }
{
    for known in names {
        if name == *known {
            return true;
        }
    }
    false
}

/// The item of a list at this place.
#[tactic(auto, unfolding(crate::specs::Reading::item_at))]
pub(crate) fn required_item<'v>(
    alloc: Global,
    name: &str,
    index: usize,
    value: &'v Value,
) -> Result<&'v Value, LineError>
    ensures { Gives (λ v. view v.now) result (item_at name.now index (view value.now)) }
{
    match value.get(index) {
        Some(item) => Ok(item),
        None => refused(alloc, name),
    }
}

/// A list has no item at this place.
#[tactic(auto, unfolding(crate::specs::Reading::no_item_at))]
pub(crate) fn no_item(
    alloc: Global,
    name: &str,
    index: usize,
    value: &Value,
) -> Result<(), LineError>
    ensures { Gives (λ x. x) result (no_item_at name.now index (view value.now)) }
{
    match value.get(index) {
        Some(_) => refused(alloc, name),
        None => Ok(()),
    }
}

#[tactic(auto, unfolding(crate::specs::Reading::side_at))]
pub(crate) fn side(alloc: Global, name: &str, value: &Value) -> Result<i32, LineError>
    ensures { Gives (λ x. x) result (side_at name.now (view value.now)) }
{
    match value.as_i64() {
        Some(n) if -2_147_483_648 <= n && n <= 2_147_483_647 => Ok(n as i32),
        _ => refused(alloc, name),
    }
}

#[tactic(auto, unfolding(crate::specs::Reading::integer_at))]
pub(crate) fn integer(alloc: Global, name: &str, value: &Value) -> Result<i64, LineError>
    ensures { Gives (λ x. x) result (integer_at name.now (view value.now)) }
{
    match value.as_i64() {
        Some(n) => Ok(n),
        None => refused(alloc, name),
    }
}

#[tactic(auto, unfolding(crate::specs::Reading::flag_at))]
pub(crate) fn flag(alloc: Global, name: &str, value: &Value) -> Result<bool, LineError>
    ensures { Gives (λ x. x) result (flag_at name.now (view value.now)) }
{
    match value.as_bool() {
        Some(flag) => Ok(flag),
        None => refused(alloc, name),
    }
}
