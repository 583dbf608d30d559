// Whether what a declaration names is known.
ghost use Rattle.std.specs.Prelude.{◌≡◌, map, None, Some, OnOk, IfErr};
ghost use Rattle.registry.specs.Refusals.{all_known, first_of, has_room, known, read_known, rule_known, unless};

use crate::id_sort::IdSort;
use crate::registry_error::RegistryError;
use crate::rule_sort::RuleSort;
use configuration::Dependency;

/// How many there may be of each kind.
pub const MAX_COUNT: usize = 1_048_576;

/// Refused as this error unless a condition holds.
pub(crate) fn unless(holds: bool, error: RegistryError) -> Option<RegistryError>
    ensures { result ≡ unless holds error }
{
    if holds { None } else { Some(error) }
}

/// What a call ends with that is refused so, if at all.
pub(crate) fn ended(refusal: Option<RegistryError>) -> Result<(), RegistryError>
    ensures passes { OnOk result (refusal ≡ None) }
    ensures refused { IfErr result (λ error. refusal ≡ Some error) }
{
    match refusal {
        Some(error) => Err(error),
        None => Ok(()),
    }
}

/// An id is known where it is less than how many there are.
pub(crate) fn known(sort: IdSort, count: usize, id: u32) -> Option<RegistryError>
    ensures { result ≡ known sort count id }
{
    if (id as usize) < count {
        None
    } else {
        Some(RegistryError::UnknownId { sort, id })
    }
}

/// Each id of a list is known.
pub(crate) fn all_known(sort: IdSort, count: usize, ids: &[u32]) -> Option<RegistryError>
    ensures { result ≡ all_known sort count ids.now }
{
    for id in ids {
        if let Some(error) = known(sort, count, *id) {
            return Some(error);
        }
    }
    None
}

/// A read names a facet or field that is declared, of so many.
fn read_known(facets: usize, fields: usize, read: Dependency) -> Option<RegistryError>
    ensures { result ≡ read_known facets fields read }
{
    match read {
        Dependency::Doc => None,
        Dependency::Selection => None,
        Dependency::Facet(facet) => known(IdSort::Facet, facets, facet),
        Dependency::Field(field) => known(IdSort::Field, fields, field),
    }
}

/// Each read of a list names one that is declared.
pub(crate) fn reads_known(
    facets: usize,
    fields: usize,
    reads: &[Dependency],
) -> Option<RegistryError>
    ensures { result ≡ first_of (map (read_known facets fields) reads.now) }
{
    for read in reads {
        if let Some(error) = read_known(facets, fields, *read) {
            return Some(error);
        }
    }
    None
}

/// A number of a sort of rules that has so many: they run from 1.
pub(crate) fn rule_known(sort: RuleSort, count: u32, number: u32) -> Option<RegistryError>
    ensures { result ≡ rule_known sort count number }
{
    if 1 <= number && number <= count {
        None
    } else {
        Some(RegistryError::UnknownRule { sort, number })
    }
}

/// There is room for one more.
pub(crate) fn has_room(kind: IdSort, count: usize) -> Option<RegistryError>
    ensures { result ≡ has_room kind count }
{
    if count < MAX_COUNT {
        None
    } else {
        Some(RegistryError::TooMany { kind })
    }
}
