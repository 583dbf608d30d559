// Sets of changes, and what `map` made.
ghost use Rattle.std.specs.Prelude.{◌≡◌, IfOk, codes, encode_utf8_all};
ghost use Rattle.serde_json.specs.Data.{member, no_members, string};
ghost use Rattle.serde_json.specs.View.{members_view, view};
ghost use Rattle.replies.specs.Replies.{mapped_data, section_data, with_place};

use crate::mapped::{MappedParts, MappedPlace};
use crate::objects::{members_of, with_member};
use crate::scalar::Scalar::{Inserted, Null, U32};
use crate::written::{Written, list_value};
use change_desc::Section;
use change_set::InsertedText;
use serde_json::{Map, Value};
use std::alloc::{AllocError, Global};

impl Written for Section<InsertedText> {
    ghost as_data = { section_data };

    fn value(&self, alloc: Global) -> Result<Value, AllocError> {
        match self {
            Section::Keep(len) => Ok(Value::from(*len)),
            Section::Replace(len, text) => list_value(alloc, &[U32(*len), Inserted(text)]),
        }
    }
}

/// The text that `map` leads to, and where the position went, if one was asked for.
fn place_and_text(
    alloc: Global,
    place: MappedPlace,
    text: &InsertedText,
) -> Result<Map<String, Value>, AllocError>
    ensures { IfOk result (λ m. members_view m.entries ≡ with_place place (member (codes "text") (string (encode_utf8_all text.now)) no_members)) }
{
    let text = ("text", Inserted(text));
    match place {
        MappedPlace::NotAsked => members_of(alloc, &[text]),
        MappedPlace::Deleted => members_of(alloc, &[("pos", Null), text]),
        MappedPlace::At(pos) => { members_of(alloc, &[("pos", U32(pos)), text]) }
    }
}

pub(crate) fn mapped_value(alloc: Global, mapped: &MappedParts) -> Result<Value, AllocError>
    ensures { IfOk result (λ v. view v ≡ mapped_data mapped.now) }
{
    let members = place_and_text(alloc, mapped.place, &mapped.text)?;
    let sections = list_value(alloc, mapped.set.sections())?;
    Ok(Value::Object(with_member(alloc, members, "sections", sections)?))
}
