// Why specs that follow changes are refused.
ghost use Rattle.std.specs.Prelude.{IfErr, IfOk, None, Some, false, option_map, ◌<◌, ◌^◌, ◌≡◌, ◌≢◌, ◌≤◌};
ghost use Rattle.std.specs.Option.{option_or};
ghost use Rattle.change_desc.specs.Map.{map_over};
ghost use Rattle.change_desc.specs.Of.{of, then_also};
ghost use Rattle.change_desc.specs.Sections.{lengths, new_size, old_size, spelled};
ghost use Rattle.change_set.specs.Changes.{as_sets};
ghost use Rattle.change_set.specs.Refusals.{refusal};
ghost use Rattle.transaction.specs.Merging.{next_total, start_len};
ghost use Rattle.transaction.specs.Refusals.{changes_refusal, given_refusal, of_changes_error, ranges_refusal, selections_refusal, spec_changes_refusal, specs_refusal, too_long, unknown_effect, unknown_in, unknown_refusal};
ghost use Rattle.filters.specs.PrivateSteps.{AreShort, IsChecked};

use change_desc::Desc;
use change_set::ChangeSet;
use selection::first_outside;
use std::alloc::{AllocError, Global};
use transaction::{Effect, EffectKinds, SelectionSpec, Spec, TransactionError};
use values::Val;

/// The changes so far, and why a selection is refused, if it is.
#[derive(Drop)]
pub struct Checked {
    pub total: ChangeSet,
    pub refusal: Option<TransactionError>,
}

/// The refusal of an effect that names an unknown kind or compartment.
fn unknown_refusal(effect: &Effect<Val>, kinds: &EffectKinds) -> Option<TransactionError>
    ensures { result ≡ unknown_refusal kinds.now effect.now }
{
    match effect {
        Effect::Kind { id, value: _ } if !kinds.knows(*id) => {
            Some(TransactionError::UnknownEffect { id: *id })
        }
        Effect::Reconfigure { compartment, to: _ } if *compartment >= kinds.compartments => {
            Some(TransactionError::UnknownCompartment { id: *compartment })
        }
        _ => None,
    }
}

/// The refusal of the first effect that names an unknown kind or compartment.
pub(crate) fn unknown_in(effects: &[Effect<Val>], kinds: &EffectKinds) -> Option<TransactionError>
    ensures { result ≡ unknown_in kinds.now effects.now }
{
    for effect in effects {
        if let Some(error) = unknown_refusal(effect, kinds) {
            return Some(error);
        }
    }
    None
}

/// The same of several specs.
fn unknown_effect(specs: &[Spec<Val>], kinds: &EffectKinds) -> Option<TransactionError>
    ensures { result ≡ unknown_effect kinds.now specs.now }
{
    for spec in specs {
        if let Some(error) = unknown_in(spec.effects.as_slice(), kinds) {
            return Some(error);
        }
    }
    None
}

/// Why a given selection is none of a document of `len` characters.
fn ranges_refusal(given: &SelectionSpec, len: u32) -> Option<TransactionError>
    ensures { result ≡ ranges_refusal len given.now }
{
    let ranges = given.ranges.as_slice();
    if ranges.is_empty() {
        return Some(TransactionError::NoRanges);
    }
    if given.main >= ranges.len() {
        return Some(TransactionError::BadMain {
            main: given.main,
            count: ranges.len(),
        });
    }
    match first_outside(ranges, len) {
        None => None,
        Some(pos) => Some(TransactionError::SelectionOutside { pos, len }),
    }
}

/// The same of a selection that may be given.
fn given_refusal(given: &Option<SelectionSpec>, len: u32) -> Option<TransactionError>
    ensures { result ≡ given_refusal len given.now }
{
    match given {
        None => None,
        Some(given) => ranges_refusal(given, len),
    }
}

/// Two sets of changes of one document as one. It is refused where the new document has more than `max` characters.
fn beside(first: &ChangeSet, second: &ChangeSet, max: u32) -> Result<ChangeSet, TransactionError>
    requires { old_size second.now ≡ old_size first.now }
    ensures both { IfOk result (λ both. both ≡ then_also spelled first.now second.now) }
    ensures accepted { IfOk result (λ _. too_long max (then_also spelled first.now second.now) ≡ None) }
    ensures refused { IfErr result (λ error. error ≢ TransactionError.NoMemory → too_long max (then_also spelled first.now second.now) ≡ Some error) }
{
    let mine = first.desc()?;
    let len = mapped_len(second, &mine)?;
    if len > u64::from(max) {
        return Err(TransactionError::TooLong { len, max });
    }
    Ok(also(first, second, &mine)?)
}

/// How long the document is that two sets of changes lead to, of which the first is described.
fn mapped_len(second: &ChangeSet, mine: &Desc) -> Result<u64, AllocError>
    requires { old_size mine.now ≡ old_size second.now }
    ensures { IfOk result (λ len. len ≡ new_size spelled (map_over spelled second.now mine.now false)) }
{
    let theirs = second.desc()?;
    Ok(theirs.mapped_len(mine))
}

/// Two sets of changes of one document as one, of which the first is described.
fn also(first: &ChangeSet, second: &ChangeSet, mine: &Desc) -> Result<ChangeSet, AllocError>
    requires same { old_size second.now ≡ old_size first.now }
    requires mine { mine.now ≡ lengths spelled first.now }
    requires fits { new_size spelled (map_over spelled second.now mine.now false) < 2 ^ 32 }
    ensures { IfOk result (λ both. both ≡ then_also spelled first.now second.now) }
{
    let moved = second.map(mine, false)?;
    first.compose(&moved)
}

/// The changes so far and then those of one more spec.
fn total_after(
    before: &ChangeSet,
    sequential: bool,
    own: &ChangeSet,
    len: u32,
    max: u32,
) -> Result<ChangeSet, TransactionError>
    requires before { old_size before.now ≡ len }
    requires starts { old_size own.now ≡ start_len len (Some before.now) sequential }
    requires short { new_size spelled own.now ≤ max }
    ensures total { IfOk result (λ total. total ≡ next_total (Some before.now) sequential own.now) }
    ensures short { IfOk result (λ total. AreShort len max total) }
    ensures accepted { IfOk result (λ _. too_long max (next_total (Some before.now) sequential own.now) ≡ None) }
    ensures refused { IfErr result (λ error. error ≢ TransactionError.NoMemory → too_long max (next_total (Some before.now) sequential own.now) ≡ Some error) }
{
    if sequential {
        Ok(before.compose(own)?)
    } else {
        beside(before, own, max)
    }
}

/// How long the document is that a spec starts in.
fn start_len(before: &ChangeSet, sequential: bool, len: u32) -> u32
    ensures { result ≡ start_len len (Some before.now) sequential }
{
    if sequential { before.new_len() } else { len }
}

/// A spec's changes, over a document of `start` characters.
fn own_changes(
    alloc: Global,
    spec: &Spec<Val>,
    start: u32,
    max: u32,
) -> Result<ChangeSet, TransactionError>
    ensures set { IfOk result (λ own. own ≡ of spelled start (as_sets start spec.now.changes)) }
    ensures starts { IfOk result (λ own. old_size own ≡ start) }
    ensures short { IfOk result (λ own. new_size spelled own ≤ max) }
    ensures accepted { IfOk result (λ _. refusal start max spec.now.changes ≡ None) }
    ensures refused { IfErr result (λ error. error ≢ TransactionError.NoMemory → option_map of_changes_error (refusal start max spec.now.changes) ≡ Some error) }
{
    Ok(ChangeSet::of(alloc, spec.changes.as_slice(), start, max)?)
}

/// One more spec after changes of a document of `len` characters.
fn after_spec(
    alloc: Global,
    before: &ChangeSet,
    spec: &Spec<Val>,
    len: u32,
    max: u32,
) -> Result<Checked, TransactionError>
    requires { AreShort len max before.now }
    ensures checked { IfOk result (λ c. IsChecked len max before.now spec.now c) }
    ensures refused { IfErr result (λ error. error ≢ TransactionError.NoMemory → spec_changes_refusal len max (Some before.now) spec.now ≡ Some error) }
{
    let start = start_len(before, spec.sequential, len);
    let own = match own_changes(alloc, spec, start, max) {
        Ok(own) => own,
        Err(error) => return Err(error),
    };
    let refusal = given_refusal(&spec.selection, own.new_len());
    match total_after(before, spec.sequential, &own, len, max) {
        Ok(total) => Ok(Checked { total, refusal }),
        Err(error) => Err(error),
    }
}

/// Nothing, where specs may follow changes of a document of `len` characters. `Err`: why they are refused, or out of memory.
pub(crate) fn check(
    alloc: Global,
    before: &ChangeSet,
    specs: &[Spec<Val>],
    kinds: &EffectKinds,
    len: u32,
    max: u32,
) -> Result<(), TransactionError>
    requires { AreShort len max before.now }
    ensures accepted { IfOk result (λ _. specs_refusal len max kinds.now (Some before.now) specs.now ≡ None) }
    ensures refused { IfErr result (λ error. error ≢ TransactionError.NoMemory → specs_refusal len max kinds.now (Some before.now) specs.now ≡ Some error) }
{
    match unknown_effect(specs, kinds) {
        Some(error) => Err(error),
        None => check_known(alloc, before, specs, len, max),
    }
}

/// The same where all kinds and compartments that effects name are known.
fn check_known(
    alloc: Global,
    before: &ChangeSet,
    specs: &[Spec<Val>],
    len: u32,
    max: u32,
) -> Result<(), TransactionError>
    requires { AreShort len max before.now }
    ensures changes { IfOk result (λ _. changes_refusal len max (Some before.now) specs.now ≡ None) }
    ensures selections { IfOk result (λ _. selections_refusal len (Some before.now) specs.now ≡ None) }
    ensures refused { IfErr result (λ error. error ≢ TransactionError.NoMemory → option_or (changes_refusal len max (Some before.now) specs.now) (selections_refusal len (Some before.now) specs.now) ≡ Some error) }
{
    let mut total = before.try_copy()?;
    let mut refusal = None;
    for spec in specs {
        match after_spec(alloc, &total, spec, len, max) {
            Ok(next) => {
                total = next.total;
                refusal = refusal.or(next.refusal);
            }
            Err(error) => return Err(error),
        }
    }
    match refusal {
        None => Ok(()),
        Some(error) => Err(error),
    }
}
