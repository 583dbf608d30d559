ghost use Rattle.std.specs.Prelude.{◌≡◌, IfOk};

use change_desc::MapMode;
use change_set::Change;
use cm_plain::Str;
use listed::Listed;
use std::alloc::{AllocError, Global};
use std::marker::Model;

/// How `map` puts two sets of changes together.
#[derive(Clone, Copy, Drop)]
pub enum MapOp {
    /// The first set.
    Of,
    /// The first set, and then the second one over the text that the first one gives.
    Compose,
    /// The second set mapped over the first one, whose texts stand first where texts meet.
    Map,
    /// The second set mapped over the first one, and its own texts stand first where texts meet.
    MapBefore,
    /// The inverse of the first set.
    Invert,
    /// What stays of the first set where ranges are protected.
    Filter,
}

/// A text and two lists of changes of it.
#[derive(Drop)]
pub struct MapSets {
    /// The text, not yet cut at its line breaks.
    pub doc: Str,
    /// The changes of the first set, which refer to the text.
    pub a: Listed<Change>,
    /// The changes of the second set. They refer to the text, or under `MapOp::Compose` to the text that the first set
    /// gives.
    pub b: Listed<Change>,
}

/// A position that is to be mapped.
#[derive(Drop)]
pub struct MapPlace {
    /// The position in characters, if one is asked for.
    pub pos: Option<u32>,
    /// Whether it stays before text that is inserted at it: where this is negative.
    pub side: i32,
    /// What it keeps track of.
    pub mode: MapMode,
}

/// The parts of what `map` asks for.
#[derive(Drop)]
pub struct MapParts {
    /// The text and the changes of both sets.
    pub sets: MapSets,
    /// How they are put together.
    pub op: MapOp,
    /// The protected ranges of `MapOp::Filter`, each from a position to a position, as they were given.
    pub protect: Listed<(u32, u32)>,
    /// The position that is to be mapped over the answered set.
    pub place: MapPlace,
}

/// What `map` asks for, kept in one place, so that it is as small as the other commands.
#[derive(Drop)]
pub struct MapRequest {
    parts: Box<MapParts>,
}

impl Model for MapRequest {
    ghost use Rattle.script.specs.declared.map_request.MapParts.{MapParts};

    ghost Value = { MapParts };

    ghost view = { λ r. r.parts.value };
}

impl MapRequest {
    /// The request with these parts. `Err`: out of memory.
    pub fn new(alloc: Global, parts: MapParts) -> Result<MapRequest, AllocError>
        ensures { IfOk result (λ r. r ≡ parts) }
    {
        let parts = Box::new(alloc, parts)?;
        Ok(MapRequest { parts })
    }

    /// Its parts. Takes no memory.
    pub fn parts(&self) -> &MapParts
        ensures { result.now ≡ self.now }
    {
        &self.parts
    }
}
