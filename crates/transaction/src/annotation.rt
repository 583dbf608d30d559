ghost use Rattle.std.specs.Prelude.{IfOk, ◌≡◌};
ghost use Rattle.transaction.specs.Specs.{with_event};

use cm_plain::{Plain, Str};
use listed::Listed;
use std::alloc::{AllocError, Global};

/// A value that a transaction carries by the name of its kind (Reference Manual, Annotation).
#[derive(Debug, Drop)]
pub struct Annotation {
    pub kind: Str,
    pub value: Plain,
}

/// The name of the annotation that holds a user event (Reference Manual, Transaction.userEvent).
pub const USER_EVENT: [char; 9] = ['u', 's', 'e', 'r', 'E', 'v', 'e', 'n', 't'];

/// The annotations with a user event after them.
pub(crate) fn with_event(
    alloc: Global,
    mut annotations: Listed<Annotation>,
    event: Option<Str>,
) -> Result<Listed<Annotation>, AllocError>
    ensures { IfOk result (λ all. all ≡ with_event annotations event) }
{
    match event {
        None => Ok(annotations),
        Some(event) => {
            let kind = Str::of(alloc, &USER_EVENT)?;
            annotations.push(Annotation {
                kind,
                value: Plain::Text(event),
            })?;
            Ok(annotations)
        }
    }
}
