// Objects, made of tables of their members.
ghost use Rattle.std.specs.Prelude.{◌≡◌, IfOk, OnOk};
ghost use Rattle.serde_json.specs.Data.{object, put};
ghost use Rattle.serde_json.specs.View.{members_view, view};
ghost use Rattle.replies.specs.Objects.{single};
ghost use Rattle.replies.specs.Scalars.{members_data};

use crate::scalar::Scalar;
use crate::written::Written;
use serde_json::{Map, Value};
use std::alloc::{AllocError, Global};

/// Puts a value under a name.
fn insert(
    alloc: Global,
    object: &mut Map<String, Value>,
    name: &str,
    value: Value,
) -> Result<(), AllocError>
    ensures { OnOk result (members_view object.new.entries ≡ put name.now (view value) (members_view object.old.entries)) }
{
    let name = String::from_str(alloc, name)?;
    drop(object.insert(name, value)?);
    Ok(())
}

/// The members of an object, by name.
pub(crate) fn members_of(
    alloc: Global,
    members: &[(&str, Scalar<'_>)],
) -> Result<Map<String, Value>, AllocError>
    ensures { IfOk result (λ m. members_view m.entries ≡ members_data members.now) }
{
    let mut object = Map::new(alloc);
    for (name, scalar) in members {
        insert(alloc, &mut object, name, scalar.value(alloc)?)?;
    }
    Ok(object)
}

/// The object of these members, by name.
pub(crate) fn object_of(alloc: Global, members: &[(&str, Scalar<'_>)]) -> Result<Value, AllocError>
    ensures { IfOk result (λ v. view v ≡ object (members_data members.now)) }
{
    Ok(Value::Object(members_of(alloc, members)?))
}

/// The members of an object, and one more.
pub(crate) fn with_member(
    alloc: Global,
    members: Map<String, Value>,
    name: &str,
    value: Value,
) -> Result<Map<String, Value>, AllocError>
    ensures { IfOk result (λ m. members_view m.entries ≡ put name.now (view value) (members_view members.entries)) }
{
    let mut more = members;
    insert(alloc, &mut more, name, value)?;
    Ok(more)
}

/// The object of one member.
pub(crate) fn single(alloc: Global, name: &str, value: Value) -> Result<Value, AllocError>
    ensures { IfOk result (λ v. view v ≡ single name.now (view value)) }
{
    let members = with_member(alloc, Map::new(alloc), name, value)?;
    Ok(Value::Object(members))
}
