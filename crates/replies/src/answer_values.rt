ghost use Rattle.std.specs.Prelude.{◌≡◌, IfOk};
ghost use Rattle.serde_json.specs.View.{view};
ghost use Rattle.replies.specs.Objects.{single, whole};
ghost use Rattle.replies.specs.Replies.{answer_data, authority_data, client_data, done_data, summary_data};

use crate::answer::{Answer, Summary};
use crate::objects::object_of;
use crate::scalar::Scalar::{Bool, Inserted, U32, U64};
use crate::screen_values::screen_value;
use crate::selection_values::selection_value;
use crate::set_values::mapped_value;
use crate::shown_values::shown_value;
use crate::texts::inserted_value;
use change_set::InsertedText;
use serde_json::{Map, Value};
use std::alloc::{AllocError, Global};

fn count_value(alloc: Global, name: &str, count: u64) -> Result<Value, AllocError>
    ensures { IfOk result (λ v. view v ≡ single name.now (whole count)) }
{
    object_of(alloc, &[(name, U64(count))])
}

fn client_value(
    alloc: Global,
    pending: u64,
    text: &InsertedText,
    version: u32,
) -> Result<Value, AllocError>
    ensures { IfOk result (λ v. view v ≡ client_data pending text.now version) }
{
    object_of(
        alloc,
        &[
            ("pending", U64(pending)),
            ("text", Inserted(text)),
            ("version", U32(version)),
        ],
    )
}

fn authority_value(alloc: Global, text: &InsertedText, version: u32) -> Result<Value, AllocError>
    ensures { IfOk result (λ v. view v ≡ authority_data text.now version) }
{
    object_of(
        alloc,
        &[("text", Inserted(text)), ("version", U32(version))],
    )
}

fn done_value(alloc: Global, done: bool, length: u32) -> Result<Value, AllocError>
    ensures { IfOk result (λ v. view v ≡ done_data done length) }
{
    object_of(alloc, &[("done", Bool(done)), ("length", U32(length))])
}

fn summary_value(alloc: Global, summary: &Summary) -> Result<Value, AllocError>
    ensures { IfOk result (λ v. view v ≡ summary_data summary.now) }
{
    object_of(
        alloc,
        &[
            ("length", U32(summary.length)),
            ("lines", U64(summary.lines)),
            ("rows", U64(summary.rows)),
            ("transactions", U64(summary.transactions)),
        ],
    )
}

pub(crate) fn answer_value(alloc: Global, answer: &Answer) -> Result<Value, AllocError>
    ensures { IfOk result (λ v. view v ≡ answer_data answer.now) }
{
    match answer {
        Answer::Nothing => Ok(Value::Object(Map::new(alloc))),
        Answer::Length(len) => count_value(alloc, "length", u64::from(*len)),
        Answer::Done { done, length } => done_value(alloc, *done, *length),
        Answer::Bytes(count) => count_value(alloc, "bytes", *count),
        Answer::Text(text) => inserted_value(text),
        Answer::Selection(selection) => selection_value(alloc, selection),
        Answer::Value(shown) => shown_value(alloc, shown),
        Answer::Mapped(mapped) => mapped_value(alloc, mapped.parts()),
        Answer::Screen(screen) => screen_value(alloc, screen),
        Answer::Summary(summary) => summary_value(alloc, summary),
        Answer::Version(version) => count_value(alloc, "version", u64::from(*version)),
        Answer::Message(message) => count_value(alloc, "message", u64::from(*message)),
        Answer::Client {
            pending,
            text,
            version,
        } => client_value(alloc, *pending, text, *version),
        Answer::Authority { text, version } => authority_value(alloc, text, *version),
    }
}
