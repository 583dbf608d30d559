// Refusals, each an object of its code and of values by name.
ghost use Rattle.std.specs.Prelude.{◌≡◌, IfOk, codes, encode_utf8_all};
ghost use Rattle.serde_json.specs.Data.{member, no_members, object, put, string};
ghost use Rattle.serde_json.specs.View.{view};
ghost use Rattle.replies.specs.Objects.{coded, texts_data, whole};
ghost use Rattle.replies.specs.Scalars.{members_data};

use crate::objects::{members_of, with_member};
use crate::scalar::Scalar::{self, Text, U64, Word};
use crate::written::list_value;
use cm_plain::Str;
use serde_json::Value;
use std::alloc::{AllocError, Global};

/// The refusal of this code with these values.
pub(crate) fn coded_value(
    alloc: Global,
    code: &str,
    members: &[(&str, Scalar<'_>)],
) -> Result<Value, AllocError>
    ensures { IfOk result (λ v. view v ≡ object (put (codes "code") (string code.now) (members_data members.now))) }
{
    let members = members_of(alloc, members)?;
    let code = Value::try_from_str(alloc, code)?;
    Ok(Value::Object(with_member(alloc, members, "code", code)?))
}

/// The refusal of this code alone.
pub(crate) fn code_value(alloc: Global, code: &str) -> Result<Value, AllocError>
    ensures { IfOk result (λ v. view v ≡ coded code.now no_members) }
{
    coded_value(alloc, code, &[])
}

/// The refusal of this code with a number.
pub(crate) fn coded_number(
    alloc: Global,
    code: &str,
    name: &str,
    number: u64,
) -> Result<Value, AllocError>
    ensures { IfOk result (λ v. view v ≡ object (put (codes "code") (string code.now) (member name.now (whole number) no_members))) }
{
    coded_value(alloc, code, &[(name, U64(number))])
}

/// The refusal of this code with a text.
pub(crate) fn coded_text<'a>(
    alloc: Global,
    code: &str,
    name: &'a str,
    text: &'a Str,
) -> Result<Value, AllocError>
    ensures { IfOk result (λ v. view v ≡ object (put (codes "code") (string code.now) (member name.now (string (encode_utf8_all text.now)) no_members))) }
{
    coded_value(alloc, code, &[(name, Text(text))])
}

/// The refusal of this code with a list of texts.
pub(crate) fn coded_texts(
    alloc: Global,
    code: &str,
    name: &str,
    texts: &[Str],
) -> Result<Value, AllocError>
    ensures { IfOk result (λ v. view v ≡ object (put name.now (texts_data texts.now) (member (codes "code") (string code.now) no_members))) }
{
    let members = members_of(alloc, &[("code", Word(code))])?;
    let texts = list_value(alloc, texts)?;
    Ok(Value::Object(with_member(alloc, members, name, texts)?))
}
