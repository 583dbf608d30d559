ghost use Rattle.serde_json.specs.View.{view};
ghost use Rattle.script.specs.Reading.{Gives};
ghost use Rattle.collab_run.specs.Commands.{within_limit, clients_of, begin_of, local_of, send_of, publish_of, deliver_of, state_of, command_named};

use crate::command::{BeginRequest, CollabCommand, MAX_CLIENTS};
use change_set::Change;
use cm_plain::Str;
use listed::Listed;
use script::{
    Commands, LineError, Refusal, list, members, number_member, only_fields, refused,
    required_member, text_if_there, text_member, text_or_empty,
};
use serde_json::Value;
use std::alloc::Global;

/// Names, of which there are from 1 to `MAX_CLIENTS`.
fn within_limit(alloc: Global, names: Listed<Str>) -> Result<Listed<Str>, LineError>
    ensures { Gives (λ x. x) result (within_limit names) }
{
    let count = names.as_slice().len();
    if 1 <= count && count <= MAX_CLIENTS {
        return Ok(names);
    }
    refused(alloc, "clients")
}

#[tactic(auto, unfolding(crate::specs::Commands::clients_of))]
fn read_clients(alloc: Global, value: &Value) -> Result<Listed<Str>, LineError>
    ensures { Gives (λ x. x) result (clients_of (view value.now)) }
{
    let names = list(alloc, "clients", required_member(alloc, "clients", value)?)?;
    within_limit(alloc, names)
}

#[tactic(auto, unfolding(crate::specs::Commands::begin_of))]
fn read_begin(alloc: Global, value: &Value) -> Result<CollabCommand, LineError>
    ensures { Gives (λ x. x) result (begin_of (view value.now)) }
{
    let members = members(alloc, "begin", value)?;
    let doc = text_or_empty(alloc, "doc", value)?;
    let clients = read_clients(alloc, value)?;
    only_fields(alloc, &["doc", "clients"], members)?;
    Ok(CollabCommand::Begin(BeginRequest { doc, clients }))
}

#[tactic(auto, unfolding(crate::specs::Commands::local_of))]
fn read_local(alloc: Global, value: &Value) -> Result<CollabCommand, LineError>
    ensures { Gives (λ x. x) result (local_of (view value.now)) }
{
    let members = members(alloc, "local", value)?;
    let client = text_member(alloc, "client", value)?;
    let changes: Listed<Change> = list(
        alloc,
        "changes",
        required_member(alloc, "changes", value)?,
    )?;
    only_fields(alloc, &["client", "changes"], members)?;
    Ok(CollabCommand::Local { client, changes })
}

#[tactic(auto, unfolding(crate::specs::Commands::send_of))]
fn read_send(alloc: Global, value: &Value) -> Result<CollabCommand, LineError>
    ensures { Gives (λ x. x) result (send_of (view value.now)) }
{
    let members = members(alloc, "send", value)?;
    let client = text_member(alloc, "client", value)?;
    only_fields(alloc, &["client"], members)?;
    Ok(CollabCommand::Send { client })
}

#[tactic(auto, unfolding(crate::specs::Commands::publish_of))]
fn read_publish(alloc: Global, value: &Value) -> Result<CollabCommand, LineError>
    ensures { Gives (λ x. x) result (publish_of (view value.now)) }
{
    let members = members(alloc, "publish", value)?;
    let from = number_member(alloc, "from", value)?;
    let to = number_member(alloc, "to", value)?;
    only_fields(alloc, &["from", "to"], members)?;
    Ok(CollabCommand::Publish { from, to })
}

#[tactic(auto, unfolding(crate::specs::Commands::deliver_of))]
fn read_deliver(alloc: Global, value: &Value) -> Result<CollabCommand, LineError>
    ensures { Gives (λ x. x) result (deliver_of (view value.now)) }
{
    let members = members(alloc, "deliver", value)?;
    let message = number_member(alloc, "message", value)?;
    let client = text_if_there(alloc, "client", value)?;
    only_fields(alloc, &["message", "client"], members)?;
    Ok(CollabCommand::Deliver { message, client })
}

#[tactic(auto, unfolding(crate::specs::Commands::state_of))]
fn read_state(alloc: Global, value: &Value) -> Result<CollabCommand, LineError>
    ensures { Gives (λ x. x) result (state_of (view value.now)) }
{
    let members = members(alloc, "state", value)?;
    only_fields(alloc, &[], members)?;
    Ok(CollabCommand::State)
}

impl Commands for CollabCommand {
    ghost named = { command_named };

    #[tactic(auto, unfolding(crate::specs::Commands::command_named))]
    fn read_named(alloc: Global, name: &str, value: &Value) -> Result<CollabCommand, LineError> {
        if name == "begin" {
            read_begin(alloc, value)
        } else if name == "local" {
            read_local(alloc, value)
        } else if name == "send" {
            read_send(alloc, value)
        } else if name == "publish" {
            read_publish(alloc, value)
        } else if name == "deliver" {
            read_deliver(alloc, value)
        } else if name == "state" {
            read_state(alloc, value)
        } else {
            Err(LineError::Refused(Refusal::NotCommand {
                field: Str::of_text(alloc, name)?,
            }))
        }
    }
}
