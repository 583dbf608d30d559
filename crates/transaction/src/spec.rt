ghost use Rattle.std.specs.Prelude.{IfErr, IfOk, Some, ◌≡◌, ◌≢◌, option_map};
ghost use Rattle.change_set.specs.Refusals.{refusal};
ghost use Rattle.transaction.specs.Refusals.{of_changes_error, unknown_effect, unknown_in};
ghost use Rattle.transaction.specs.PrivateMade.{IsMade, IsMadeSelection, IsWith};

use crate::annotation::{Annotation, with_event};
use crate::draft::Draft;
use crate::effect::{Effect, first_unknown};
use crate::effect_kinds::EffectKinds;
use crate::error::TransactionError;
use change_set::{Change, ChangeSet};
use cm_plain::Str;
use listed::Listed;
use selection::{Range, Selection, SelectionError, first_outside};
use std::alloc::{AllocError, Global};

/// A selection that a spec gives: ranges as they were written, and which of them, counted from 0, is the main one. They refer
/// to the document after the spec's own changes.
#[derive(Drop)]
pub struct SelectionSpec {
    pub ranges: Listed<Range>,
    pub main: usize,
}

/// One part of a transaction (Reference Manual, TransactionSpec).
#[derive(Drop)]
pub struct Spec<V> {
    /// All refer to the spec's start document.
    pub changes: Listed<Change>,
    /// The selection to be set, if any.
    pub selection: Option<SelectionSpec>,
    /// They refer to the document after the spec's own changes.
    pub effects: Listed<Effect<V>>,
    pub annotations: Listed<Annotation>,
    /// The event's name, which becomes an annotation `userEvent` after the others.
    pub user_event: Option<Str>,
    /// Whether its start document is the one after the specs before it, in place of the start document of all.
    pub sequential: bool,
    /// Whether filters are asked.
    pub filter: bool,
}

/// A selection that was made of a spec's ranges, or why there is none.
#[derive(Drop)]
pub(crate) struct MadeSelection {
    pub(crate) selection: Option<Selection>,
    pub(crate) refusal: Option<TransactionError>,
}

/// A spec as a draft by itself, and why its selection is refused, if it is.
#[derive(Drop)]
pub(crate) struct Made<V> {
    pub(crate) draft: Box<Draft<V>>,
    pub(crate) refusal: Option<TransactionError>,
    pub(crate) sequential: bool,
}

impl SelectionSpec {
    /// The selection of a document of `len` characters, or why there is none.
    fn made(&self, alloc: Global, len: u32) -> Result<MadeSelection, AllocError>
        ensures { IfOk result (λ made. IsMadeSelection len (Some self.now) made) }
    {
        match Selection::create(alloc, self.ranges.as_slice(), self.main) {
            Err(SelectionError::NoMemory) => Err(AllocError),
            Err(error) => Ok(MadeSelection {
                selection: None,
                refusal: Some(TransactionError::from(error)),
            }),
            Ok(selection) => match first_outside(self.ranges.as_slice(), len) {
                None => Ok(MadeSelection {
                    selection: Some(selection),
                    refusal: None,
                }),
                Some(pos) => Ok(MadeSelection {
                    selection: None,
                    refusal: Some(TransactionError::SelectionOutside { pos, len }),
                }),
            },
        }
    }
}

/// The given selection of a document of `len` characters, if there is one.
fn made_selection(
    alloc: Global,
    given: &Option<SelectionSpec>,
    len: u32,
) -> Result<MadeSelection, AllocError>
    ensures { IfOk result (λ made. IsMadeSelection len given.now made) }
{
    match given {
        None => Ok(MadeSelection {
            selection: None,
            refusal: None,
        }),
        Some(given) => given.made(alloc, len),
    }
}

impl<V: Drop> Spec<V> {
    /// The refusal of its first effect that names an unknown kind or compartment.
    pub(crate) fn unknown_effect(&self, kinds: &EffectKinds) -> Option<TransactionError>
        ensures { result ≡ unknown_in kinds.now self.now.effects }
    {
        first_unknown(self.effects.as_slice(), kinds)
    }

    /// The spec as a draft by itself, over a document of `start` characters.
    pub(crate) fn made(
        self,
        alloc: Global,
        start: u32,
        max: u32,
    ) -> Result<Made<V>, TransactionError>
        ensures made { IfOk result (λ made. IsMade start max self made) }
        ensures refused { IfErr result (λ error. error ≢ TransactionError.NoMemory → option_map of_changes_error (refusal start max self.changes) ≡ Some error) }
    {
        let own = ChangeSet::of(alloc, self.changes.as_slice(), start, max)?;
        let given = made_selection(alloc, &self.selection, own.new_len())?;
        Ok(self.with(alloc, own, given)?)
    }

    /// The spec as a draft of these changes, with this selection.
    fn with(
        self,
        alloc: Global,
        own: ChangeSet,
        given: MadeSelection,
    ) -> Result<Made<V>, AllocError>
        ensures { IfOk result (λ made. IsWith own given self made) }
    {
        let annotations = with_event(alloc, self.annotations, self.user_event)?;
        let draft = Draft {
            changes: own,
            selection: given.selection,
            effects: self.effects,
            annotations,
            filter: self.filter,
        };
        Ok(Made {
            draft: draft.boxed(alloc)?,
            refusal: given.refusal,
            sequential: self.sequential,
        })
    }
}

/// The refusal of the first effect of some specs that names an unknown kind or compartment.
pub(crate) fn unknown_effect<V>(specs: &[Spec<V>], kinds: &EffectKinds) -> Option<TransactionError>
    ensures { result ≡ unknown_effect kinds.now specs.now }
{
    for spec in specs {
        if let Some(error) = first_unknown(spec.effects.as_slice(), kinds) {
            return Some(error);
        }
    }
    None
}
