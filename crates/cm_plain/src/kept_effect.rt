ghost use Rattle.std.specs.Prelude.{◌≡◌, ◌↔◌, IfOk, IsTrue};
ghost use Rattle.cm_plain.specs.KeptMaps.{kept_map_of, number_of};

use crate::plain::Plain;
use std::alloc::{AllocError, Global};

/// How the value of a kept effect moves with changes of its document.
#[derive(Clone, Copy, PartialEq, Eq, Debug, Drop)]
pub enum KeptMap {
    /// It is a position: effect map number 1.
    Position,
    /// It is a list of two positions, the ends of a range: effect map number 2.
    Range,
}

impl KeptMap {
    /// The map of this number, where it is 1 or 2.
    pub fn of_number(number: u32) -> Option<KeptMap>
        ensures { result ≡ kept_map_of number }
    {
        match number {
            1 => Some(KeptMap::Position),
            2 => Some(KeptMap::Range),
            _ => None,
        }
    }

    /// Its number, 1 or 2.
    pub fn number(self) -> u32
        ensures { result ≡ number_of self }
    {
        match self {
            KeptMap::Position => 1,
            KeptMap::Range => 2,
        }
    }
}

/// An effect that is kept to be sent again (Reference Manual, invertedEffects): the id of its kind, how its value moves, if
/// it does, and its value.
#[derive(Debug, Drop)]
pub struct KeptEffect {
    pub id: u32,
    pub map: Option<KeptMap>,
    pub value: Plain,
}

impl KeptEffect {
    /// Whether both are of one kind and have the same map and value.
    pub fn same(&self, other: &KeptEffect) -> bool
        ensures { IsTrue result ↔ (self.now ≡ other.now) }
    {
        self.id == other.id && self.map == other.map && self.value.same(&other.value)
    }

    /// The same effect once more. `Err`: out of memory.
    pub fn try_copy(&self, alloc: Global) -> Result<KeptEffect, AllocError>
        ensures { IfOk result (λ copy. copy ≡ self.now) }
    {
        Ok(KeptEffect {
            id: self.id,
            map: self.map,
            value: self.value.try_copy(alloc)?,
        })
    }
}
