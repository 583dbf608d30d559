// What a declaration answers, as plain data.
use registry::{IdSort, RegistryError, RuleSort};

/// The new id, or what the call is refused as.
#[derive(Clone, Copy, PartialEq, Eq)]
pub enum Answer {
    Id(u32),
    NoMemory,
    UnknownId(IdSort, u32),
    UnknownRule(RuleSort, u32),
    StaticFacet(u32),
    WrongShape(u32),
    AlreadyPlaced(u32),
    BadInverse(u32, u32),
    InverseTaken(u32),
    TooMany(IdSort),
}

pub fn refusal(error: RegistryError) -> Answer {
    match error {
        RegistryError::NoMemory => Answer::NoMemory,
        RegistryError::UnknownId { sort, id } => Answer::UnknownId(sort, id),
        RegistryError::UnknownRule { sort, number } => Answer::UnknownRule(sort, number),
        RegistryError::StaticFacet { facet } => Answer::StaticFacet(facet),
        RegistryError::WrongShape { id } => Answer::WrongShape(id),
        RegistryError::AlreadyPlaced { field } => Answer::AlreadyPlaced(field),
        RegistryError::BadInverse { effect, back } => Answer::BadInverse(effect, back),
        RegistryError::InverseTaken { effect } => Answer::InverseTaken(effect),
        RegistryError::TooMany { kind } => Answer::TooMany(kind),
    }
}

pub fn answered(found: Result<u32, RegistryError>) -> Answer {
    match found {
        Ok(id) => Answer::Id(id),
        Err(error) => refusal(error),
    }
}
