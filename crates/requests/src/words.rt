// The words for precedences, for kinds of decorations, and for commands and moves of the editor.
ghost use Rattle.std.specs.Prelude.{◌≡◌};
ghost use Rattle.serde_json.specs.View.{view};
ghost use Rattle.term_keys.specs.declared.key.Move.TheVariants.{Left};
ghost use Rattle.script.specs.Reading.{Gives, defaulted, required_as};
ghost use Rattle.requests.specs.Words.{command_at, command_named, kind_at, kind_named, move_at, move_named, precedence_at, precedence_named};

use crate::do_request::EditorCommand;
use decoration::Kind;
use ext_tree::Precedence;
use script::{LineError, refused, required_member};
use serde_json::Value;
use std::alloc::Global;
use term_keys::Move;

fn precedence_named(word: &str) -> Option<Precedence>
    ensures { result ≡ precedence_named word.now }
{
    if word == "highest" {
        Some(Precedence::Highest)
    } else if word == "high" {
        Some(Precedence::High)
    } else if word == "default" {
        Some(Precedence::Default)
    } else if word == "low" {
        Some(Precedence::Low)
    } else if word == "lowest" {
        Some(Precedence::Lowest)
    } else {
        None
    }
}

fn kind_named(word: &str) -> Option<Kind>
    ensures { result ≡ kind_named word.now }
{
    if word == "mark" {
        Some(Kind::Mark)
    } else if word == "widget" {
        Some(Kind::Widget)
    } else if word == "replace" {
        Some(Kind::Replace)
    } else if word == "line" {
        Some(Kind::Line)
    } else {
        None
    }
}

fn command_named(word: &str) -> Option<EditorCommand>
    ensures { result ≡ command_named word.now }
{
    if word == "insert" {
        Some(EditorCommand::Insert)
    } else if word == "newline" {
        Some(EditorCommand::Newline)
    } else if word == "deleteBack" {
        Some(EditorCommand::DeleteBack)
    } else if word == "deleteForward" {
        Some(EditorCommand::DeleteForward)
    } else if word == "move" {
        Some(EditorCommand::Move)
    } else if word == "selectAll" {
        Some(EditorCommand::SelectAll)
    } else if word == "undo" {
        Some(EditorCommand::Undo)
    } else if word == "redo" {
        Some(EditorCommand::Redo)
    } else if word == "undoSelection" {
        Some(EditorCommand::UndoSelection)
    } else if word == "redoSelection" {
        Some(EditorCommand::RedoSelection)
    } else {
        None
    }
}

fn move_named(word: &str) -> Option<Move>
    ensures { result ≡ move_named word.now }
{
    if word == "left" {
        Some(Move::Left)
    } else if word == "right" {
        Some(Move::Right)
    } else if word == "up" {
        Some(Move::Up)
    } else if word == "down" {
        Some(Move::Down)
    } else if word == "lineStart" {
        Some(Move::LineStart)
    } else if word == "lineEnd" {
        Some(Move::LineEnd)
    } else if word == "docStart" {
        Some(Move::DocStart)
    } else if word == "docEnd" {
        Some(Move::DocEnd)
    } else {
        None
    }
}

#[tactic(auto, unfolding(crate::specs::Words::precedence_at))]
fn precedence(alloc: Global, name: &str, value: &Value) -> Result<Precedence, LineError>
    ensures { Gives (λ x. x) result (precedence_at name.now (view value.now)) }
{
    match value.as_str().and_then(precedence_named) {
        Some(precedence) => Ok(precedence),
        None => refused(alloc, name),
    }
}

#[tactic(auto, unfolding(crate::specs::Words::kind_at))]
fn kind(alloc: Global, name: &str, value: &Value) -> Result<Kind, LineError>
    ensures { Gives (λ x. x) result (kind_at name.now (view value.now)) }
{
    match value.as_str().and_then(kind_named) {
        Some(kind) => Ok(kind),
        None => refused(alloc, name),
    }
}

/// The precedence that the member of this name is, which has to be there.
pub(crate) fn precedence_member(
    alloc: Global,
    name: &str,
    value: &Value,
) -> Result<Precedence, LineError>
    ensures { Gives (λ x. x) result (required_as name.now precedence_at (view value.now)) }
{
    let member = required_member(alloc, name, value)?;
    precedence(alloc, name, member)
}

/// The kind of decorations that the member of this name is, which has to be there.
pub(crate) fn kind_member(alloc: Global, name: &str, value: &Value) -> Result<Kind, LineError>
    ensures { Gives (λ x. x) result (required_as name.now kind_at (view value.now)) }
{
    let member = required_member(alloc, name, value)?;
    kind(alloc, name, member)
}

#[tactic(auto, unfolding(crate::specs::Words::command_at))]
fn command(alloc: Global, name: &str, value: &Value) -> Result<EditorCommand, LineError>
    ensures { Gives (λ x. x) result (command_at name.now (view value.now)) }
{
    match value.as_str().and_then(command_named) {
        Some(command) => Ok(command),
        None => refused(alloc, name),
    }
}

#[tactic(auto, unfolding(crate::specs::Words::move_at))]
fn direction(alloc: Global, name: &str, value: &Value) -> Result<Move, LineError>
    ensures { Gives (λ x. x) result (move_at name.now (view value.now)) }
{
    match value.as_str().and_then(move_named) {
        Some(direction) => Ok(direction),
        None => refused(alloc, name),
    }
}

/// The command of the editor that the member of this name is, which has to be there.
pub(crate) fn command_member(
    alloc: Global,
    name: &str,
    value: &Value,
) -> Result<EditorCommand, LineError>
    ensures { Gives (λ x. x) result (required_as name.now command_at (view value.now)) }
{
    let member = required_member(alloc, name, value)?;
    command(alloc, name, member)
}

/// The move that the member of this name is, or to the left where there is no such member.
pub(crate) fn move_or_left(alloc: Global, name: &str, value: &Value) -> Result<Move, LineError>
    ensures { Gives (λ x. x) result (defaulted name.now move_at Left (view value.now)) }
{
    match value.get(name) {
        Some(member) => direction(alloc, name, member),
        None => Ok(Move::Left),
    }
}
