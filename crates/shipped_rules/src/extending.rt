ghost use Rattle.std.specs.Prelude.{◌≡◌, IfOk};
ghost use Rattle.values.specs.Extending.{extend, nothing_more, start_length, touched_note};

use cm_plain::{Plain, Str};
use listed::Listed;
use std::alloc::{AllocError, Global};
use transaction::{Annotation, Effect};
use values::{Extension, TrView, Val};

/// The name of the annotation that says that a transaction changes something.
const TOUCHED: [char; 7] = ['t', 'o', 'u', 'c', 'h', 'e', 'd'];

/// What the extender of a number adds to a transaction. `Err`: out of memory.
pub fn extend(
    alloc: Global,
    number: u32,
    transaction: &TrView,
    filter_data: &Val,
) -> Result<Extension, AllocError>
    ensures { IfOk result (λ a. a ≡ extend number transaction.now filter_data.now) }
{
    match number {
        1 => Ok(nothing_more(alloc)),
        2 => touched_note(alloc, transaction),
        3 => start_length(alloc, transaction),
        _ => Ok(nothing_more(alloc)),
    }
}

/// Neither effects nor annotations.
fn nothing_more(alloc: Global) -> Extension
    ensures { result ≡ nothing_more }
{
    Extension {
        effects: Listed::empty(alloc),
        annotations: Listed::empty(alloc),
    }
}

/// That the transaction changes something, where it does.
fn touched_note(alloc: Global, transaction: &TrView) -> Result<Extension, AllocError>
    ensures { IfOk result (λ a. a ≡ touched_note transaction.now) }
{
    let mut annotations = Listed::empty(alloc);
    if !transaction.changes().is_empty() {
        annotations.push(Annotation {
            kind: Str::of(alloc, &TOUCHED)?,
            value: Plain::Bool(true),
        })?;
    }
    Ok(Extension {
        effects: Listed::empty(alloc),
        annotations,
    })
}

/// An effect `note` with the start document's length.
fn start_length(alloc: Global, transaction: &TrView) -> Result<Extension, AllocError>
    ensures { IfOk result (λ a. a ≡ start_length transaction.now) }
{
    let mut effects = Listed::empty(alloc);
    effects.push(Effect::Kind {
        id: 0,
        value: Val::Plain(Plain::Int(i64::from(transaction.start().len()))),
    })?;
    Ok(Extension {
        effects,
        annotations: Listed::empty(alloc),
    })
}
