ghost use Rattle.std.specs.Prelude.{◌≡◌, [], ◌∷◌, IfOk, Ok};
ghost use Rattle.requests.specs.declared.request.Request.TheVariants as requests;
ghost use Rattle.requests.specs.Requests.{request_named};
ghost use Rattle.script.specs.Lines.{line_command};
ghost use Rattle.workload.specs.MadeLines.{edit_line, mark_line};
ghost use Rattle.workload.specs.declared.edit.Edit.TheVariants.{Insert, Delete};
ghost use Rattle.made_requests.specs.PrivateRequests.{changing, positions, spec, time_note};

use crate::inserted::{made_text, no_text};
use change_set::Change;
use cm_plain::{Plain, Str};
use listed::Listed;
use requests::{NamedEffect, SpecRequest};
use std::alloc::{AllocError, Global};
use transaction::Annotation;
use workload::Edit;

/// The list of one item. `Err`: out of memory.
fn alone<T: Drop>(alloc: Global, item: T) -> Result<Listed<T>, AllocError>
    ensures { IfOk result (λ list. list ≡ item ∷ []) }
{
    let mut items = Vec::with_capacity(alloc, 1)?;
    items.push(item)?;
    Ok(Listed::new(items))
}

/// The annotation of a time in milliseconds. `Err`: out of memory.
fn time_note(alloc: Global, time: u32) -> Result<Annotation, AllocError>
    ensures { IfOk result (λ note. note ≡ time_note time) }
{
    Ok(Annotation {
        kind: Str::of(alloc, &['t', 'i', 'm', 'e'])?,
        value: Plain::Int(i64::from(time)),
    })
}

/// A spec of these changes, effects and annotations alone, which filters apply to.
#[inline(always)]
fn spec(
    changes: Listed<Change>,
    effects: Listed<NamedEffect>,
    annotations: Listed<Annotation>,
) -> SpecRequest
    ensures { result ≡ spec changes effects annotations }
{
    SpecRequest {
        changes,
        selection: None,
        effects,
        annotations,
        user_event: None,
        sequential: false,
        filter: true,
    }
}

/// The spec of a transaction that makes a change and tells the time. `Err`: out of memory.
fn changing(alloc: Global, time: u32, change: Change) -> Result<SpecRequest, AllocError>
    ensures { IfOk result (λ spec. spec ≡ changing time change) }
{
    let changes = alone(alloc, change)?;
    let annotations = alone(alloc, time_note(alloc, time)?)?;
    Ok(spec(changes, Listed::empty(alloc), annotations))
}

/// The value of the effect `mark` of two positions: the list of both. `Err`: out of memory.
fn positions(alloc: Global, from: u32, to: u32) -> Result<Plain, AllocError>
    ensures { IfOk result (λ value. value ≡ positions from to) }
{
    let mut items = Vec::with_capacity(alloc, 2)?;
    items.push(Plain::Int(i64::from(from)))?;
    items.push(Plain::Int(i64::from(to)))?;
    match Plain::list(items) {
        Ok(list) => Ok(list),
        Err(_) => unreachable!(),
    }
}

/// The spec of the update that the line of a mark asks for. `Err`: out of memory.
fn mark(alloc: Global, from: u32, to: u32) -> Result<SpecRequest, AllocError>
    ensures { IfOk result (λ spec. line_command request_named (mark_line from to) ≡ Ok (requests.Update (spec ∷ []))) }
{
    let value = positions(alloc, from, to)?;
    let effect = Str::of(alloc, &['m', 'a', 'r', 'k'])?;
    let effects = alone(alloc, NamedEffect::Kind { effect, value })?;
    Ok(spec(Listed::empty(alloc), effects, Listed::empty(alloc)))
}

/// The spec of the update that an insertion's line asks for. `Err`: out of memory.
fn insertion(
    alloc: Global,
    time: u32,
    at: u32,
    size: u8,
    letter: u32,
) -> Result<SpecRequest, AllocError>
    ensures { IfOk result (λ spec. line_command request_named (edit_line time (Insert at size letter)) ≡ Ok (requests.Update (spec ∷ []))) }
{
    let insert = made_text(alloc, size, letter)?;
    changing(
        alloc,
        time,
        Change::Span {
            from: at,
            to: at,
            insert,
        },
    )
}

/// The spec of the update that a deletion's line asks for. `Err`: out of memory.
fn deletion(alloc: Global, time: u32, from: u32, to: u32) -> Result<SpecRequest, AllocError>
    ensures { IfOk result (λ spec. line_command request_named (edit_line time (Delete from to)) ≡ Ok (requests.Update (spec ∷ []))) }
{
    let insert = no_text(alloc)?;
    changing(alloc, time, Change::Span { from, to, insert })
}

/// The only spec of the update that the line of a transaction asks for: what reading the line gives. The time, in milliseconds,
/// stands in the spec of an insertion and of a deletion; a mark's has none. `Err`: out of memory.
pub fn edit_spec(alloc: Global, time: u32, edit: Edit) -> Result<SpecRequest, AllocError>
    ensures { IfOk result (λ spec. line_command request_named (edit_line time edit) ≡ Ok (requests.Update (spec ∷ []))) }
{
    match edit {
        Edit::Insert { at, size, letter } => insertion(alloc, time, at, size, letter),
        Edit::Delete { from, to } => deletion(alloc, time, from, to),
        Edit::Mark { from, to } => mark(alloc, from, to),
    }
}
