ghost use Rattle.std.specs.Prelude.{◌≡◌};
ghost use Rattle.serde_json.specs.View.{view};
ghost use Rattle.script.specs.Reading.{Gives};
ghost use Rattle.script.specs.Words.{op_named, mode_named, op_at, mode_at};
ghost use Rattle.script.specs.Command.{map_sets_of, map_op_of, map_place_of, map_request_of, map_of};

use crate::command::Command;
use crate::fields::{members, only_fields, refused};
use crate::item::Item;
use crate::map_request::{MapOp, MapParts, MapPlace, MapRequest, MapSets};
use crate::member::{defaulted, list_or_empty, optional, required, text_member};
use crate::refusal::LineError;
use change_desc::MapMode;
use listed::Listed;
use serde_json::Value;
use std::alloc::Global;

fn op_named(word: &str) -> Option<MapOp>
    ensures { result ≡ op_named word.now }
{
    if word == "of" {
        Some(MapOp::Of)
    } else if word == "compose" {
        Some(MapOp::Compose)
    } else if word == "map" {
        Some(MapOp::Map)
    } else if word == "mapBefore" {
        Some(MapOp::MapBefore)
    } else if word == "invert" {
        Some(MapOp::Invert)
    } else if word == "filter" {
        Some(MapOp::Filter)
    } else {
        None
    }
}

fn mode_named(word: &str) -> Option<MapMode>
    ensures { result ≡ mode_named word.now }
{
    if word == "simple" {
        Some(MapMode::Simple)
    } else if word == "trackDel" {
        Some(MapMode::TrackDel)
    } else if word == "trackBefore" {
        Some(MapMode::TrackBefore)
    } else if word == "trackAfter" {
        Some(MapMode::TrackAfter)
    } else {
        None
    }
}

impl Item for MapOp {
    ghost item_of = { op_at };

    #[tactic(auto, unfolding(crate::specs::Words::op_at))]
    fn read(alloc: Global, name: &str, value: &Value) -> Result<MapOp, LineError> {
        match value.as_str().and_then(op_named) {
            Some(op) => Ok(op),
            None => refused(alloc, name),
        }
    }
}

impl Item for MapMode {
    ghost item_of = { mode_at };

    #[tactic(auto, unfolding(crate::specs::Words::mode_at))]
    fn read(alloc: Global, name: &str, value: &Value) -> Result<MapMode, LineError> {
        match value.as_str().and_then(mode_named) {
            Some(mode) => Ok(mode),
            None => refused(alloc, name),
        }
    }
}

#[tactic(auto, unfolding(crate::specs::Command::map_sets_of))]
fn read_sets(alloc: Global, value: &Value) -> Result<MapSets, LineError>
    ensures { Gives (λ x. x) result (map_sets_of (view value.now)) }
{
    let doc = text_member(alloc, "doc", value)?;
    let a = required(alloc, "a", value)?;
    let b = list_or_empty(alloc, "b", value)?;
    Ok(MapSets { doc, a, b })
}

#[tactic(auto, unfolding(crate::specs::Command::map_place_of))]
fn read_place(alloc: Global, value: &Value) -> Result<MapPlace, LineError>
    ensures { Gives (λ x. x) result (map_place_of (view value.now)) }
{
    let pos = optional(alloc, "pos", value)?;
    let side = defaulted(alloc, "side", value, 1)?;
    let mode = defaulted(alloc, "mode", value, MapMode::Simple)?;
    Ok(MapPlace { pos, side, mode })
}

#[tactic(auto, unfolding(crate::specs::Command::map_op_of))]
fn read_op(alloc: Global, value: &Value) -> Result<(MapOp, Listed<(u32, u32)>), LineError>
    ensures { Gives (λ x. x) result (map_op_of (view value.now)) }
{
    let op = required(alloc, "op", value)?;
    let protect = list_or_empty(alloc, "protect", value)?;
    Ok((op, protect))
}

/// What the command `map` with this argument asks for.
#[tactic(auto, unfolding(crate::specs::Command::map_request_of))]
pub fn read_map_request(alloc: Global, value: &Value) -> Result<MapRequest, LineError>
    ensures { Gives (λ x. x) result (map_request_of (view value.now)) }
{
    let members = members(alloc, "map", value)?;
    let sets = read_sets(alloc, value)?;
    let (op, protect) = read_op(alloc, value)?;
    let place = read_place(alloc, value)?;
    only_fields(
        alloc,
        &["doc", "a", "b", "op", "protect", "pos", "side", "mode"],
        members,
    )?;
    let parts = MapParts {
        sets,
        op,
        protect,
        place,
    };
    Ok(MapRequest::new(alloc, parts)?)
}

/// The command `map` with this argument.
#[tactic(auto, unfolding(crate::specs::Command::map_of))]
pub(crate) fn read_map(alloc: Global, value: &Value) -> Result<Command, LineError>
    ensures { Gives (λ x. x) result (map_of (view value.now)) }
{
    let request = read_map_request(alloc, value)?;
    Ok(Command::Map(request))
}
