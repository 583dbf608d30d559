// Keys of facets and fields, and what they get.
ghost use Rattle.std.specs.Prelude.{IfOk, Some, false};
ghost use Rattle.registry.specs.Predeclared.{combined_by, history_def};
ghost use Rattle.typed_keys.specs.Keys.{KnowsFacet, KnowsField};
ghost use Rattle.values.specs.Shipped.{shipped};

use crate::shelf::Shelf;
use cm_plain::{Plain, Str};
use decoration::{DecoSet, Layers};
use history::History;
use registry::{DECORATIONS, FILTER_DATA, HISTORY, READ_ONLY, Registry, SAVE_SEPARATOR, TAB_SIZE};
use shipped_rules::Shipped;
use std::alloc::{AllocError, Global};
use std::test::Fail;
use typed_keys::{Carried, FacetKey, FieldKey, KeyError};
use values::Val;

/// Whether a facet has a key of these types; none where it has an error with another id.
fn has_key<I: Carried, O: Carried>(
    alloc: Global,
    registry: &Registry<Shipped>,
    facet: u32,
) -> Result<Option<bool>, AllocError> {
    if facet as usize >= registry.defs().facets.as_slice().len() {
        return Ok(None);
    }
    match FacetKey::<I, O>::new(alloc, registry, facet) {
        Ok(_) => Ok(Some(true)),
        Err(KeyError::NoMemory) => Err(AllocError),
        Err(KeyError::WrongShape { id }) => {
            if id == facet {
                Ok(Some(false))
            } else {
                Ok(None)
            }
        }
    }
}

/// The same of a field and a type.
fn has_field_key<T: Carried>(
    alloc: Global,
    registry: &Registry<Shipped>,
    field: u32,
) -> Result<Option<bool>, AllocError> {
    if field as usize >= registry.defs().fields.as_slice().len() {
        return Ok(None);
    }
    match FieldKey::<T>::new(alloc, registry, field) {
        Ok(_) => Ok(Some(true)),
        Err(KeyError::NoMemory) => Err(AllocError),
        Err(KeyError::WrongShape { id }) => {
            if id == field {
                Ok(Some(false))
            } else {
                Ok(None)
            }
        }
    }
}

/// Whether a facet that is declared from the start has a key of these types.
fn is_facet<I: Carried, O: Carried>(alloc: Global, facet: u32) -> Result<bool, AllocError> {
    let registry = Registry::<Shipped>::new(alloc)?;
    Ok(has_key::<I, O>(alloc, &registry, facet)? == Some(true))
}

/// Whether a facet that is declared from the start is refused as of another shape than these types.
fn is_no_facet<I: Carried, O: Carried>(alloc: Global, facet: u32) -> Result<bool, AllocError> {
    let registry = Registry::<Shipped>::new(alloc)?;
    Ok(has_key::<I, O>(alloc, &registry, facet)? == Some(false))
}

#[test]
fn a_facet_has_a_key_of_types_that_fit(rt: HostRuntime) -> Result<(), Fail> {
    let alloc = rt.alloc();
    assert!(rt; is_facet::<bool, bool>(alloc, READ_ONLY)?);
    assert!(rt; is_facet::<bool, Plain>(alloc, READ_ONLY)?);
    assert!(rt; is_facet::<Str, Plain>(alloc, FILTER_DATA)?);
    assert!(rt; is_facet::<DecoSet, Layers>(alloc, DECORATIONS)?);
    Ok(())
}

#[test]
fn a_facet_has_no_key_of_other_types(rt: HostRuntime) -> Result<(), Fail> {
    let alloc = rt.alloc();
    assert!(rt; is_no_facet::<Plain, bool>(alloc, READ_ONLY)?);
    assert!(rt; is_no_facet::<bool, i64>(alloc, READ_ONLY)?);
    assert!(rt; is_no_facet::<i64, i64>(alloc, TAB_SIZE)?);
    assert!(rt; is_no_facet::<Str, Plain>(alloc, SAVE_SEPARATOR)?);
    Ok(())
}

/// Whether the field of the history has a key of a type.
fn is_history<T: Carried>(alloc: Global) -> Result<Option<bool>, AllocError> {
    let registry = Registry::<Shipped>::new(alloc)?;
    has_field_key::<T>(alloc, &registry, HISTORY)
}

#[test]
fn a_field_has_a_key_of_a_type_that_fits(rt: HostRuntime) -> Result<(), Fail> {
    let alloc = rt.alloc();
    assert!(rt; is_history::<History>(alloc)? == Some(true));
    assert!(rt; is_history::<Plain>(alloc)? == Some(false));
    assert!(rt; is_history::<Layers>(alloc)? == Some(false));
    Ok(())
}

/// What comes back of what was carried.
fn back<T: Carried>(alloc: Global, given: &T) -> Result<T, AllocError> {
    let value = given.to_val(alloc)?;
    T::from_val(alloc, &value)
}

fn plain_comes_back(alloc: Global) -> Result<bool, AllocError> {
    let given = Plain::Text(Str::of_text(alloc, "abc")?);
    let found = back(alloc, &given)?;
    Ok(found.same(&given))
}

fn text_comes_back(alloc: Global) -> Result<bool, AllocError> {
    let given = Str::of_text(alloc, "abc")?;
    let found = back(alloc, &given)?;
    Ok(found.same(&given))
}

fn set_comes_back(alloc: Global) -> Result<bool, AllocError> {
    let given = DecoSet::empty(alloc);
    let found = back(alloc, &given)?;
    Ok(found.same(&given))
}

fn layers_come_back(alloc: Global) -> Result<bool, AllocError> {
    let given = Layers::empty(alloc);
    let found = back(alloc, &given)?;
    Ok(found.same(&given))
}

fn history_comes_back(alloc: Global) -> Result<bool, AllocError> {
    let given = History::empty(alloc)?;
    let found = back(alloc, &given)?;
    Ok(found.same(&given))
}

#[test]
fn what_is_carried_comes_back(rt: HostRuntime) -> Result<(), Fail> {
    let alloc = rt.alloc();
    assert!(rt; back(alloc, &true)? && back(alloc, &i64::MIN)? == i64::MIN);
    assert!(rt; plain_comes_back(alloc)? && text_comes_back(alloc)?);
    assert!(rt; set_comes_back(alloc)? && layers_come_back(alloc)? && history_comes_back(alloc)?);
    Ok(())
}

/// The key of the facet `readOnly`.
fn flag_key(alloc: Global) -> Result<FacetKey<bool, bool>, KeyError>
    ensures { IfOk result (λ key. KnowsFacet shipped (Some (combined_by 13 false)) key) }
{
    let registry = Registry::<Shipped>::new(alloc)?;
    let key = FacetKey::<bool, bool>::new(alloc, &registry, READ_ONLY)?;
    Ok(key)
}

/// What that key gets.
fn flag_by(alloc: Global, key: &FacetKey<bool, bool>, flag: bool) -> Result<bool, AllocError>
    requires { KnowsFacet shipped (Some (combined_by 13 false)) key.now }
{
    let shelf = Shelf {
        flag: Val::Plain(Plain::Bool(flag)),
        kept: None,
    };
    key.get(alloc, &shelf)
}

/// The value of the facet `readOnly`, as a truth value.
fn flag_in(alloc: Global, flag: bool) -> Result<bool, Fail> {
    let key = flag_key(alloc)?;
    Ok(flag_by(alloc, &key, flag)?)
}

/// The key of the field `history`.
fn history_key(alloc: Global) -> Result<FieldKey<History>, KeyError>
    ensures { IfOk result (λ key. KnowsField shipped (Some history_def) key) }
{
    let registry = Registry::<Shipped>::new(alloc)?;
    let key = FieldKey::<History>::new(alloc, &registry, HISTORY)?;
    Ok(key)
}

/// A shelf with a history, or without one.
fn shelf_with(kept: Option<History>) -> Shelf {
    Shelf {
        flag: Val::Plain(Plain::Bool(false)),
        kept: match kept {
            Some(history) => Some(Val::History(history)),
            None => None,
        },
    }
}

/// Whether that key gets a history.
fn gets_history(
    alloc: Global,
    key: &FieldKey<History>,
    kept: Option<History>,
) -> Result<bool, AllocError>
    requires { KnowsField shipped (Some history_def) key.now }
{
    let shelf = shelf_with(kept);
    let found = key.get(alloc, &shelf)?;
    Ok(found.is_some())
}

/// Whether the field `history` is there.
fn has_history(alloc: Global, is_kept: bool) -> Result<bool, Fail> {
    let key = history_key(alloc)?;
    let kept = if is_kept {
        Some(History::empty(alloc)?)
    } else {
        None
    };
    Ok(gets_history(alloc, &key, kept)?)
}

#[test]
fn a_key_gets_the_value_that_is_there(rt: HostRuntime) -> Result<(), Fail> {
    let alloc = rt.alloc();
    assert!(rt; flag_in(alloc, true)? && !flag_in(alloc, false)?);
    assert!(rt; has_history(alloc, true)? && !has_history(alloc, false)?);
    Ok(())
}
