ghost use Rattle.std.specs.Prelude.{◌≡◌, IfOk};

use change_set::{ChangeSet, InsertedText};
use std::alloc::{AllocError, Global};
use std::marker::Model;

/// Where a position went.
#[derive(Clone, Copy, Drop)]
pub enum MappedPlace {
    /// No position was asked for.
    NotAsked,
    /// What it keeps track of was deleted.
    Deleted,
    /// It is here, counted in characters.
    At(u32),
}

/// The parts of what `map` answers.
#[derive(Drop)]
pub struct MappedParts {
    /// The set of changes.
    pub set: ChangeSet,
    /// The text that it leads to, or under the inverse of a set the text that this set changes.
    pub text: InsertedText,
    /// Where the position that was asked for went.
    pub place: MappedPlace,
}

/// What `map` answers, kept in one place, so that it is as small as the other answers.
#[derive(Drop)]
pub struct Mapped {
    parts: Box<MappedParts>,
}

impl Model for Mapped {
    ghost use Rattle.replies.specs.declared.mapped.MappedParts.{MappedParts};

    ghost Value = { MappedParts };

    ghost view = { λ m. m.parts.value };
}

impl Mapped {
    /// The answer with these parts. `Err`: out of memory.
    pub fn new(alloc: Global, parts: MappedParts) -> Result<Mapped, AllocError>
        ensures { IfOk result (λ m. m ≡ parts) }
    {
        let parts = Box::new(alloc, parts)?;
        Ok(Mapped { parts })
    }

    /// Its parts. Takes no memory.
    pub fn parts(&self) -> &MappedParts
        ensures { result.now ≡ self.now }
    {
        &self.parts
    }
}
