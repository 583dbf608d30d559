// Why a declaration is refused.
ghost use Rattle.std.specs.Prelude.{◌≡◌};
ghost use Rattle.registry.specs.declared.registry_error.RegistryError.TheVariants.{NoMemory};

use crate::id_sort::IdSort;
use crate::rule_sort::RuleSort;
use std::alloc::AllocError;
use thiserror::Error;

/// Why a declaration is refused. Ids count from 0, numbers of rules from 1.
#[derive(Debug, Drop, Error)]
pub enum RegistryError {
    /// Out of memory.
    #[error("out of memory")]
    NoMemory,
    /// An id that isn't declared: the first one in the order of the call. For an `init` a field that isn't placed yet is
    /// an unknown id.
    #[error("there is no {sort:?} {id}")]
    UnknownId { sort: IdSort, id: u32 },
    /// A number that no rule of the sort has.
    #[error("there is no rule {number} of sort {sort:?}")]
    UnknownRule { sort: RuleSort, number: u32 },
    /// A computed input of a static facet.
    #[error("facet {facet} is static")]
    StaticFacet { facet: u32 },
    /// A value, or what a rule gives, that isn't of the shape of this facet's combiner or this field's updater.
    #[error("a value is of another shape than {id} takes")]
    WrongShape { id: u32 },
    /// A field that has its node.
    #[error("field {field} is placed already")]
    AlreadyPlaced { field: u32 },
    /// Two effect kinds whose maps differ, or are a number other than 1 and 2.
    #[error("effects {effect} and {back} can't undo each other")]
    BadInverse { effect: u32, back: u32 },
    /// An effect kind that has a pair.
    #[error("effect {effect} has an inverse already")]
    InverseTaken { effect: u32 },
    /// There are 1,048,576 of the kind.
    #[error("there are too many of kind {kind:?}")]
    TooMany { kind: IdSort },
}

impl From<AllocError> for RegistryError {
    ghost from_gives = { λ _ error. error ≡ NoMemory };

    fn from(_error: AllocError) -> RegistryError {
        RegistryError::NoMemory
    }
}
