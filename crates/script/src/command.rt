ghost use Rattle.std.specs.Prelude.{ℕ, List, Result};
ghost use Rattle.serde_json.specs.Data.{Data};
ghost use Rattle.serde_json.specs.View.{view};
ghost use Rattle.script.specs.declared.refusal.Refusal.{Refusal};
ghost use Rattle.script.specs.Reading.{Gives};

use crate::map_request::MapRequest;
use crate::refusal::LineError;
use crate::start_request::StartRequest;
use cm_plain::Plain;
use listed::Listed;
use serde_json::Value;
use std::alloc::Global;
use transaction::Spec;

/// The commands of one kind of script, each with a name and an argument.
pub trait Commands: Drop {
    /// What is read from a name and an argument.
    ghost named: { List ℕ → Data → Result Self Refusal };

    /// The command of this name with this argument. `Err`: there is no such command, or its argument is refused; or out of memory.
    fn read_named(alloc: Global, name: &str, value: &Value) -> Result<Self, LineError>
        ensures { Gives (λ x. x) result (named name.now (view value.now)) };
}

/// What a line asks for.
#[derive(Drop)]
pub enum Command {
    /// A new document.
    Start(StartRequest),
    /// A transaction of these specs, of which there may be none. They have no effects.
    Update(Listed<Spec<Plain>>),
    /// The document's text.
    Text,
    /// The selection of the document.
    Selection,
    /// A set of changes made from two lists of changes. It needs no document and changes none.
    Map(MapRequest),
}
