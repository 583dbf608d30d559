ghost use Rattle.std.specs.Prelude.{◌≡◌, IfOk, string_bytes};
ghost use Rattle.serde_json.specs.View.{view};
ghost use Rattle.replies.specs.Replies.{reply_data, reply_text};

use crate::answer::{Answer, Reply};
use crate::answer_values::answer_value;
use crate::objects::single;
use crate::refusal_values::refusal_value;
use itoa::Buffer;
use serde_json::Value;
use std::alloc::{AllocError, Global};

fn reply_value(alloc: Global, reply: &Reply) -> Result<Value, AllocError>
    ensures { IfOk result (λ v. view v ≡ reply_data reply.now) }
{
    match reply {
        Reply::Ok(answer) => single(alloc, "ok", answer_value(alloc, answer)?),
        Reply::No(refusal) => single(alloc, "no", refusal_value(alloc, refusal)?),
    }
}

/// The line that answers with a length, written without a JSON value.
#[tactic(auto, using(crate::proofs::LengthLine::length_line))]
fn length_text(alloc: Global, len: u32) -> Result<String, AllocError>
    ensures { IfOk result (λ s. string_bytes s ≡ reply_text (Reply.Ok (Answer.Length len))) }
{
    let mut digits = Buffer::new();
    let mut text = String::with_capacity(alloc, 32)?;
    text.push_str("{\"ok\":{\"length\":")?;
    text.push_str(digits.format(len))?;
    text.push_str("}}\n")?;
    Ok(text)
}

#[tactic(auto, using(crate::proofs::NoFloats::reply_has_none), unfolding(crate::specs::Replies::reply_text))]
fn value_text(alloc: Global, reply: &Reply) -> Result<String, AllocError>
    ensures { IfOk result (λ s. string_bytes s ≡ reply_text reply.now) }
{
    let mut text = reply_value(alloc, reply)?.to_string(alloc)?;
    text.push_str("\n")?;
    Ok(text)
}

/// The line that answers: the compact JSON text of the reply, with members in byte order of their names, and LF. The
/// only error is out of memory.
pub fn reply_text(alloc: Global, reply: &Reply) -> Result<String, AllocError>
    ensures { IfOk result (λ s. string_bytes s ≡ reply_text reply.now) }
{
    match reply {
        Reply::Ok(Answer::Length(len)) => length_text(alloc, *len),
        _ => value_text(alloc, reply),
    }
}
