ghost use Rattle.serde_json.specs.View.{view};
ghost use Rattle.script.specs.Reading.{Gives};
ghost use Rattle.script.specs.Command.{no_fields_of, start_of, text_of, selection_of, command_named};

use crate::command::{Command, Commands};
use crate::fields::{members, only_fields};
use crate::map_reading::read_map;
use crate::member::text_or_empty;
use crate::refusal::{LineError, Refusal};
use crate::selection_reading::first_selection;
use crate::spec_reading::read_update;
use crate::start_request::StartRequest;
use cm_plain::Str;
use serde_json::Value;
use std::alloc::Global;

#[tactic(auto, unfolding(crate::specs::Command::start_of))]
fn read_start(alloc: Global, value: &Value) -> Result<Command, LineError>
    ensures { Gives (λ x. x) result (start_of (view value.now)) }
{
    let members = members(alloc, "start", value)?;
    let doc = text_or_empty(alloc, "doc", value)?;
    let selection = first_selection(alloc, value)?;
    only_fields(alloc, &["doc", "selection", "main"], members)?;
    Ok(Command::Start(StartRequest { doc, selection }))
}

/// The argument of the command of this name has no member. `Err`: it is no object, or its first member is refused; or out of
/// memory.
#[tactic(auto, unfolding(crate::specs::Command::no_fields_of))]
pub fn no_fields(alloc: Global, name: &str, value: &Value) -> Result<(), LineError>
    ensures { Gives (λ x. x) result (no_fields_of name.now (view value.now)) }
{
    let members = members(alloc, name, value)?;
    only_fields(alloc, &[], members)
}

#[tactic(auto, unfolding(crate::specs::Command::text_of))]
fn read_text(alloc: Global, value: &Value) -> Result<Command, LineError>
    ensures { Gives (λ x. x) result (text_of (view value.now)) }
{
    no_fields(alloc, "text", value)?;
    Ok(Command::Text)
}

#[tactic(auto, unfolding(crate::specs::Command::selection_of))]
fn read_selection(alloc: Global, value: &Value) -> Result<Command, LineError>
    ensures { Gives (λ x. x) result (selection_of (view value.now)) }
{
    no_fields(alloc, "selection", value)?;
    Ok(Command::Selection)
}

impl Commands for Command {
    ghost named = { command_named };

    #[tactic(auto, unfolding(crate::specs::Command::command_named))]
    fn read_named(alloc: Global, name: &str, value: &Value) -> Result<Command, LineError> {
        if name == "start" {
            read_start(alloc, value)
        } else if name == "update" {
            read_update(alloc, value)
        } else if name == "text" {
            read_text(alloc, value)
        } else if name == "selection" {
            read_selection(alloc, value)
        } else if name == "map" {
            read_map(alloc, value)
        } else {
            Err(LineError::Refused(Refusal::NotCommand {
                field: Str::of_text(alloc, name)?,
            }))
        }
    }
}
