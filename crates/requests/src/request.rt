ghost use Rattle.serde_json.specs.View.{view};
ghost use Rattle.script.specs.Reading.{Gives};
ghost use Rattle.script.specs.Accepted.{AnswersWhere, is_command};
ghost use Rattle.requests.specs.Requests.{asked_named, other_named, request_named, text_alone_of};
ghost use Rattle.requests.specs.Tables.{requests};

use crate::declaration::{Declaration, declaration_named};
use crate::do_request::DoRequest;
use crate::new_state::NewState;
use crate::open_request::OpenRequest;
use crate::spec_request::SpecRequest;
use crate::view_request::ViewRequest;
use cm_plain::Str;
use listed::Listed;
use script::{
    Commands, Item, LineError, MapRequest, Refusal, members, no_fields, only_fields,
    read_map_request, text_member,
};
use serde_json::Value;
use std::alloc::Global;

/// What a line of a session asks for.
#[derive(Drop)]
pub enum Request {
    /// A declaration.
    Declare(Declaration),
    /// A new state.
    Start(NewState),
    /// A new state of a file's text.
    Open(OpenRequest),
    /// The document's text is to be written to the file of this name.
    Save(Str),
    /// A transaction of these specs, of which there may be none.
    Update(Listed<SpecRequest>),
    /// A command of the editor.
    Do(DoRequest),
    /// The document's text.
    Text,
    /// The selection of the document.
    Selection,
    /// The value of the facet or field of this name.
    Get(Str),
    /// A set of changes made from two lists of changes. It needs no document and changes none.
    Map(MapRequest),
    /// A new window of this size.
    View(ViewRequest),
    /// What the window shows.
    Screen,
    /// The counts of the session.
    Summary,
}

/// The only field of an argument, a text under this name.
#[tactic(auto, unfolding(crate::specs::Requests::text_alone_of))]
fn text_alone(alloc: Global, field: &str, command: &str, value: &Value) -> Result<Str, LineError>
    ensures { Gives (λ x. x) result (text_alone_of field.now command.now (view value.now)) }
{
    let members = members(alloc, command, value)?;
    let text = text_member(alloc, field, value)?;
    only_fields(alloc, &[field], members)?;
    Ok(text)
}

/// The request of a command of this name with this argument that asks, or that sets the window.
fn asked_named(alloc: Global, name: &str, value: &Value) -> Result<Request, LineError>
    ensures { Gives (λ x. x) result (asked_named name.now (view value.now)) }
{
    if name == "text" {
        no_fields(alloc, name, value)?;
        Ok(Request::Text)
    } else if name == "selection" {
        no_fields(alloc, name, value)?;
        Ok(Request::Selection)
    } else if name == "get" {
        Ok(Request::Get(text_alone(alloc, "name", name, value)?))
    } else if name == "map" {
        Ok(Request::Map(read_map_request(alloc, value)?))
    } else if name == "view" {
        Ok(Request::View(Item::read(alloc, name, value)?))
    } else if name == "screen" {
        no_fields(alloc, name, value)?;
        Ok(Request::Screen)
    } else if name == "summary" {
        no_fields(alloc, name, value)?;
        Ok(Request::Summary)
    } else {
        Err(LineError::Refused(Refusal::NotCommand {
            field: Str::of_text(alloc, name)?,
        }))
    }
}

/// The request of a command of this name with this argument that declares nothing.
fn other_named(alloc: Global, name: &str, value: &Value) -> Result<Request, LineError>
    ensures { Gives (λ x. x) result (other_named name.now (view value.now)) }
{
    if name == "start" {
        Ok(Request::Start(Item::read(alloc, name, value)?))
    } else if name == "open" {
        Ok(Request::Open(Item::read(alloc, name, value)?))
    } else if name == "save" {
        Ok(Request::Save(text_alone(alloc, "file", name, value)?))
    } else if name == "update" {
        Ok(Request::Update(Item::read(alloc, name, value)?))
    } else if name == "do" {
        Ok(Request::Do(Item::read(alloc, name, value)?))
    } else {
        asked_named(alloc, name, value)
    }
}

/// The request of a command of this name with this argument, a declaration or another.
#[tactic(auto, unfolding(crate::specs::Requests::request_named))]
fn request_named(alloc: Global, name: &str, value: &Value) -> Result<Request, LineError>
    ensures { Gives (λ x. x) result (request_named name.now (view value.now)) }
{
    match declaration_named(alloc, name, value)? {
        Some(declaration) => Ok(Request::Declare(declaration)),
        None => other_named(alloc, name, value),
    }
}

/// The request of the command of this name with this argument: it is one exactly where the command is one of the table of requests
/// and takes the argument, unless out of memory.
pub fn read_request(alloc: Global, name: &str, value: &Value) -> Result<Request, LineError>
    ensures gives { Gives (λ x. x) result (request_named name.now (view value.now)) }
    ensures accepts { AnswersWhere result (is_command requests name.now (view value.now)) }
{
    request_named(alloc, name, value)
}

impl Commands for Request {
    ghost named = { request_named };

    fn read_named(alloc: Global, name: &str, value: &Value) -> Result<Request, LineError> {
        read_request(alloc, name, value)
    }
}
