// The two parts of a draft's changes that change filters leave.
ghost use Rattle.std.specs.Prelude.{IfErr, IfOk, Ok, Err, option_map, ◌<◌, ◌^◌, ◌≡◌, ◌≢◌};
ghost use Rattle.change_desc.specs.Sections.{counted, new_size, old_size, spelled};
ghost use Rattle.selection.specs.Selections.{moved_selection};
ghost use Rattle.transaction.specs.Effects.{HasMaps};
ghost use Rattle.transaction.specs.Merging.{SelectionIn};
ghost use Rattle.values.specs.Views.{AreWithin};
ghost use Rattle.values.specs.Whole.{IsWhole};
ghost use Rattle.filters.specs.Guards.{no_changes, reduced, way_back, with_parts};
ghost use Rattle.filters.specs.PrivateParts.{AreParts, LeadsBack};
ghost use Rattle.filters.specs.Starts.{IsStart, StartsIn, start_of};

use crate::effects::moved_effects;
use crate::start::Start;
use change_desc::Desc;
use change_set::{ChangeSet, Filtered};
use selection::Selection;
use std::alloc::{AllocError, Global};
use transaction::{Draft, TransactionError};
use values::{Kit, Meanings, Val};

/// The parts where no change is kept.
pub(crate) fn all_dropped(alloc: Global, changes: &ChangeSet) -> Result<Filtered, AllocError>
    ensures kept { IfOk result (λ parts. parts.kept ≡ no_changes (old_size changes.now)) }
    ensures dropped { IfOk result (λ parts. parts.dropped ≡ changes.now) }
{
    Ok(Filtered {
        kept: ChangeSet::empty(alloc, changes.len())?,
        dropped: changes.try_copy()?,
    })
}

/// The way from the new document of all changes to that of the kept ones.
fn way_back(all: &ChangeSet, parts: &Filtered) -> Result<Desc, AllocError>
    requires parts { AreParts all.now parts.now.kept parts.now.dropped }
    requires fits { new_size spelled all.now < 2 ^ 32 }
    ensures value { IfOk result (λ back. back ≡ way_back parts.now.kept parts.now.dropped) }
    ensures leads { IfOk result (λ back. LeadsBack all.now parts.now.kept back) }
{
    let dropped = parts.dropped.desc()?;
    let kept = parts.kept.desc()?;
    let over = dropped.map(&kept, false)?;
    over.inverted()
}

/// A given selection after changes.
fn moved(selection: Option<Selection>, changes: &Desc) -> Result<Option<Selection>, AllocError>
    requires { SelectionIn (old_size changes.now) selection }
    ensures moved { IfOk result (λ moved. moved ≡ option_map (moved_selection changes.now) selection) }
    ensures inside { IfOk result (λ moved. SelectionIn (new_size counted changes.now) moved) }
{
    match selection {
        None => Ok(None),
        Some(selection) => Ok(Some(selection.map(changes)?)),
    }
}

/// A draft of which these changes are kept, by the way back.
fn reduced<M: Meanings>(
    alloc: Global,
    kit: &Kit<M>,
    start: &Start<'_>,
    kept: ChangeSet,
    back: &Desc,
    draft: Box<Draft<Val>>,
) -> Result<Box<Draft<Val>>, AllocError>
    requires whole { IsWhole M.rules kit.now }
    requires maps { HasMaps M.rules.effect_maps start.now.kinds.now.maps }
    requires within { AreWithin back.now }
    requires inside { SelectionIn (old_size back.now) draft.value.selection }
    ensures value { IfOk result (λ d. d.value ≡ reduced M.rules (start_of start.now) kept back.now draft.value) }
    ensures inside { IfOk result (λ d. SelectionIn (new_size counted back.now) d.value.selection) }
{
    let draft = Box::into_inner(draft);
    let selection = moved(draft.selection, back)?;
    let effects = moved_effects(alloc, kit, start.kinds, back, draft.effects)?;
    let draft = Draft {
        changes: kept,
        selection,
        effects,
        annotations: draft.annotations,
        filter: draft.filter,
    };
    draft.boxed(alloc)
}

/// A draft of whose changes these parts are made. It is refused where the kept ones lead to a document that is too long.
pub(crate) fn with_parts<M: Meanings>(
    alloc: Global,
    kit: &Kit<M>,
    start: &Start<'_>,
    parts: Filtered,
    draft: Box<Draft<Val>>,
) -> Result<Box<Draft<Val>>, TransactionError>
    requires whole { IsWhole M.rules kit.now }
    requires maps { HasMaps M.rules.effect_maps start.now.kinds.now.maps }
    requires start { IsStart (start_of start.now) }
    requires draft { StartsIn (start_of start.now) draft.value }
    requires parts { AreParts draft.value.changes parts.kept parts.dropped }
    ensures draft { IfOk result (λ d. with_parts M.rules (start_of start.now) parts.kept parts.dropped draft.value ≡ Ok d.value) }
    ensures starts { IfOk result (λ d. StartsIn (start_of start.now) d.value) }
    ensures refused { IfErr result (λ error. error ≢ TransactionError.NoMemory → with_parts M.rules (start_of start.now) parts.kept parts.dropped draft.value ≡ Err error) }
{
    let len = parts.kept.new_len();
    if len > start.max {
        return Err(TransactionError::TooLong {
            len: u64::from(len),
            max: start.max,
        });
    }
    let back = way_back(&draft.changes, &parts)?;
    Ok(reduced(alloc, kit, start, parts.kept, &back, draft)?)
}
