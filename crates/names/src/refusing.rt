// The refusals of the registry, with names in place of ids.
ghost use Rattle.std.specs.Prelude.{◌≡◌, ℕ, List, IfErr, IfOk, IsErr, IsOk, OnErr, OnOk, Some, take};
ghost use Rattle.script.specs.declared.declaration_refusal.DeclarationRefusal.TheVariants.{BadInverse, UnknownRule};
ghost use Rattle.names.specs.RegistryRefusals.{IsWritten, kind_word, registry_refusal, rule_sort_word};

use crate::names::Names;
use cm_plain::Str;
use registry::{IdSort, RegistryError, RuleSort};
use script::{DeclarationRefusal, LineError, Refusal};
use std::alloc::{AllocError, Global};

fn rule_sort_word(alloc: Global, sort: RuleSort) -> Result<Str, AllocError>
    ensures { IfOk result (λ word. word ≡ rule_sort_word sort) }
{
    match sort {
        RuleSort::Combine => Str::of_text(alloc, "combine"),
        RuleSort::Compare => Str::of_text(alloc, "compare"),
        RuleSort::Compute => Str::of_text(alloc, "compute"),
        RuleSort::ComputeN => Str::of_text(alloc, "computeN"),
        RuleSort::Create => Str::of_text(alloc, "create"),
        RuleSort::Update => Str::of_text(alloc, "update"),
        RuleSort::EffectMap => Str::of_text(alloc, "effectMap"),
    }
}

fn kind_word(alloc: Global, kind: IdSort) -> Result<Str, AllocError>
    ensures { IfOk result (λ word. word ≡ kind_word kind) }
{
    match kind {
        IdSort::Compartment => Str::of_text(alloc, "compartment"),
        IdSort::Effect => Str::of_text(alloc, "effect"),
        IdSort::Facet => Str::of_text(alloc, "facet"),
        IdSort::Field => Str::of_text(alloc, "field"),
        IdSort::Node => Str::of_text(alloc, "node"),
    }
}

/// The names that a command has for the ids that a refusal of it names.
pub(crate) trait IdNames {
    /// The name of an id.
    ghost names: { Self → ℕ → List ℕ };

    /// The name of an id. Takes no memory.
    fn name(&self, id: u32) -> &Str
        ensures { result.now ≡ names self.now id };
}

/// One name, whatever the id.
impl IdNames for Str {
    ghost names = { λ name id. name };

    fn name(&self, _id: u32) -> &Str {
        self
    }
}

/// What the registry refuses, under its name in a reply. `Err`: out of memory.
fn refusal<N: IdNames>(
    alloc: Global,
    error: RegistryError,
    names: &N,
) -> Result<Refusal, AllocError>
    ensures { IfOk result (λ r. registry_refusal (N.names names.now) error ≡ Some r) }
{
    match error {
        RegistryError::NoMemory => Err(AllocError),
        RegistryError::UnknownId { sort: _, id } => Ok(Refusal::UnknownName {
            name: names.name(id).try_copy()?,
        }),
        RegistryError::UnknownRule { sort, number } => unknown_rule(alloc, sort, number),
        RegistryError::StaticFacet { facet } => {
            Ok(Refusal::Declaration(DeclarationRefusal::StaticFacet {
                facet: names.name(facet).try_copy()?,
            }))
        }
        RegistryError::WrongShape { id } => {
            Ok(Refusal::Declaration(DeclarationRefusal::WrongShape {
                id: names.name(id).try_copy()?,
            }))
        }
        RegistryError::AlreadyPlaced { field } => Ok(Refusal::NameTaken {
            name: names.name(field).try_copy()?,
        }),
        RegistryError::BadInverse { effect, back } => {
            bad_inverse(names.name(effect), names.name(back))
        }
        RegistryError::InverseTaken { effect } => {
            Ok(Refusal::Declaration(DeclarationRefusal::InverseTaken {
                effect: names.name(effect).try_copy()?,
            }))
        }
        RegistryError::TooMany { kind } => Ok(Refusal::Declaration(DeclarationRefusal::TooMany {
            kind: kind_word(alloc, kind)?,
        })),
    }
}

/// No rule of a sort has this number.
fn unknown_rule(alloc: Global, sort: RuleSort, number: u32) -> Result<Refusal, AllocError>
    ensures { IfOk result (λ r. r ≡ Refusal.Declaration (UnknownRule (rule_sort_word sort) number)) }
{
    let sort = rule_sort_word(alloc, sort)?;
    Ok(Refusal::Declaration(DeclarationRefusal::UnknownRule { sort, number }))
}

/// Two effect kinds of these names can't undo each other.
fn bad_inverse(effect: &Str, back: &Str) -> Result<Refusal, AllocError>
    ensures { IfOk result (λ r. r ≡ Refusal.Declaration (BadInverse effect.now back.now)) }
{
    let effect = effect.try_copy()?;
    let back = back.try_copy()?;
    Ok(Refusal::Declaration(DeclarationRefusal::BadInverse { effect, back }))
}

/// What comes of a call of the registry. Where it was refused, or is out of memory, names that were added for it, after so many,
/// go again.
pub(crate) fn settled<T: Drop, N: IdNames>(
    alloc: Global,
    names: &mut Names,
    count: usize,
    outcome: Result<T, RegistryError>,
    ids: &N,
) -> Result<(), LineError>
    ensures done { OnOk result (names.new ≡ names.old) }
    ensures undone { OnErr result (names.new ≡ take count names.old) }
    ensures passed { OnOk result (IsOk outcome) }
    ensures refused { IfErr result (λ e. IfErr outcome (λ error. IsWritten (N.names ids.now) error e)) }
    ensures failed { OnErr result (IsErr outcome) }
{
    match outcome {
        Ok(_) => Ok(()),
        Err(error) => {
            names.shorten(count);
            Err(LineError::Refused(refusal(alloc, error, ids)?))
        }
    }
}

/// The id of what is declared next, where there are so many. There is no memory for as many as no id can have.
pub(crate) fn id_of(count: usize) -> Result<u32, AllocError>
    ensures { IfOk result (λ id. id ≡ count) }
{
    match u32::try_from(count) {
        Ok(id) => Ok(id),
        Err(_) => Err(AllocError),
    }
}
