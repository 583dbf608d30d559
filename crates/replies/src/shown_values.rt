// Values of facets and fields.
ghost use Rattle.std.specs.Prelude.{◌≡◌, IfOk};
ghost use Rattle.cm_plain.specs.Datum.{data_of};
ghost use Rattle.cm_plain.specs.Plain.{datum_of};
ghost use Rattle.serde_json.specs.Data.{array};
ghost use Rattle.serde_json.specs.View.{view};
ghost use Rattle.replies.specs.declared.shown.Shown.TheVariants.{Absent};
ghost use Rattle.replies.specs.Shown.{history_data, kind_word, plain_data, plain_items, shown_data, shown_range, shown_ranges};

use crate::objects::object_of;
use crate::scalar::Scalar::{Bool, U32, U64, Word};
use crate::shown::{Shown, ShownRange};
use crate::written::{Written, list_value};
use cm_plain::{Plain, PlainList};
use decoration::Kind;
use listed::Listed;
use serde_json::Value;
use std::alloc::{AllocError, Global};

#[cycle(plain)]
fn plain_value(alloc: Global, plain: &Plain) -> Result<Value, AllocError>
    ensures { IfOk result (λ v. view v ≡ plain_data (datum_of plain.now)) }
{
    match plain {
        Plain::Unit => Ok(Value::Null),
        Plain::Bool(flag) => Ok(Value::Bool(*flag)),
        Plain::Int(number) => Ok(Value::from(*number)),
        Plain::Text(text) => text.value(alloc),
        Plain::List(list) => plain_list_value(alloc, list),
    }
}

#[cycle(plain)]
fn plain_list_value(alloc: Global, list: &PlainList) -> Result<Value, AllocError>
    ensures { IfOk result (λ v. view v ≡ array (plain_items (data_of list.now))) }
{
    let mut values = Vec::new(alloc);
    for item in list.as_slice() {
        values.push(plain_value(alloc, item)?)?;
    }
    Ok(Value::Array(values))
}

/// The word for what a decoration does.
fn kind_word(kind: Kind) -> &'static str
    ensures { result.now ≡ kind_word kind }
{
    match kind {
        Kind::Mark => "mark",
        Kind::Widget => "widget",
        Kind::Replace => "replace",
        Kind::Line => "line",
    }
}

impl Written for ShownRange {
    ghost as_data = { shown_range };

    fn value(&self, alloc: Global) -> Result<Value, AllocError> {
        object_of(
            alloc,
            &[
                ("from", U32(self.from)),
                ("kind", Word(kind_word(self.kind))),
                ("to", U32(self.to)),
            ],
        )
    }
}

impl Written for Listed<ShownRange> {
    ghost as_data = { shown_ranges };

    fn value(&self, alloc: Global) -> Result<Value, AllocError> {
        list_value(alloc, self.as_slice())
    }
}

fn history_value(alloc: Global, done: u64, undone: u64) -> Result<Value, AllocError>
    ensures { IfOk result (λ v. view v ≡ history_data done undone) }
{
    object_of(alloc, &[("done", U64(done)), ("undone", U64(undone))])
}

/// A field that the state doesn't have.
fn absent_value(alloc: Global) -> Result<Value, AllocError>
    ensures { IfOk result (λ v. view v ≡ shown_data Absent) }
{
    object_of(alloc, &[("absent", Bool(true))])
}

pub(crate) fn shown_value(alloc: Global, shown: &Shown) -> Result<Value, AllocError>
    ensures { IfOk result (λ v. view v ≡ shown_data shown.now) }
{
    match shown {
        Shown::Plain(plain) => plain_value(alloc, plain),
        Shown::Ranges(ranges) => ranges.value(alloc),
        Shown::Layers(sets) => list_value(alloc, sets.as_slice()),
        Shown::History { done, undone } => history_value(alloc, *done, *undone),
        Shown::Absent => absent_value(alloc),
    }
}
