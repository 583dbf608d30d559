ghost use Rattle.std.specs.Prelude.{IfErr, IfOk, None, Some, ◌≡◌, ◌≢◌, ◌≤◌};
ghost use Rattle.change_desc.specs.Of.{then_also};
ghost use Rattle.change_desc.specs.Sections.{new_size, old_size, spelled};
ghost use Rattle.transaction.specs.PrivateExtras.{draft_of, extras_of};
ghost use Rattle.transaction.specs.Frames.{IsFrame};
ghost use Rattle.transaction.specs.Merging.{IsDraft, SelectionIn, beside, empty_draft, followed};
ghost use Rattle.transaction.specs.Refusals.{too_long};

use crate::annotation::Annotation;
use crate::effect::Effect;
use crate::effect_maps::EffectMaps;
use crate::error::TransactionError;
use crate::extras::Extras;
use crate::frame::Frame;
use crate::meeting::join_changes;
use change_set::ChangeSet;
use listed::Listed;
use selection::Selection;
use std::alloc::{AllocError, Global};

/// Specs merged into one, before filters (Reference Manual, Transaction).
#[derive(Drop)]
pub struct Draft<V> {
    /// The changes of the start document.
    pub changes: ChangeSet,
    /// The selection of the new document, if one was given.
    pub selection: Option<Selection>,
    /// They refer to the new document.
    pub effects: Listed<Effect<V>>,
    pub annotations: Listed<Annotation>,
    /// Whether filters are asked.
    pub filter: bool,
}

impl<V: Drop> Draft<V> {
    /// The draft of no spec at all, over a document of `len` characters.
    pub(crate) fn empty(alloc: Global, len: u32) -> Result<Box<Draft<V>>, AllocError>
        ensures { IfOk result (λ draft. draft.value ≡ empty_draft len) }
    {
        let draft = Draft {
            changes: ChangeSet::empty(alloc, len)?,
            selection: None,
            effects: Listed::empty(alloc),
            annotations: Listed::empty(alloc),
            filter: true,
        };
        draft.boxed(alloc)
    }

    /// The draft in a box, so that passing it on copies a pointer. `Err`: out of memory.
    pub fn boxed(self, alloc: Global) -> Result<Box<Draft<V>>, AllocError>
        ensures { IfOk result (λ boxed. boxed.value ≡ self) }
    {
        Ok(Box::new(alloc, self)?)
    }

    /// What it has beside its changes.
    fn extras(self) -> Extras<V>
        ensures { result ≡ extras_of self }
    {
        Extras {
            selection: self.selection,
            effects: self.effects,
            annotations: self.annotations,
            filter: self.filter,
        }
    }

    /// The draft of these parts.
    fn of(changes: ChangeSet, extras: Extras<V>) -> Draft<V>
        ensures { result ≡ draft_of changes extras }
    {
        Draft {
            changes,
            selection: extras.selection,
            effects: extras.effects,
            annotations: extras.annotations,
            filter: extras.filter,
        }
    }

    /// The draft and then another, which starts where this ends.
    pub(crate) fn followed<M: EffectMaps<V>>(
        self,
        alloc: Global,
        next: Draft<V>,
        frame: &Frame<M>,
    ) -> Result<Box<Draft<V>>, AllocError>
        requires meet { new_size spelled self.changes ≡ old_size next.changes }
        requires inside { SelectionIn (new_size spelled self.changes) self.selection }
        requires next_inside { SelectionIn (new_size spelled next.changes) next.selection }
        requires frame { IsFrame (M.can_map frame.now.maps.now) (M.map_count frame.now.maps.now) frame.now.kinds.now frame.now.max }
        requires short { new_size spelled self.changes ≤ frame.now.max }
        requires next_short { new_size spelled next.changes ≤ frame.now.max }
        ensures value { IfOk result (λ draft. draft.value ≡ followed frame.now.kinds.now (M.map_value frame.now.maps.now) self next) }
        ensures is_draft { IfOk result (λ draft. IsDraft (old_size self.changes) draft.value) }
    {
        let over = next.changes.desc()?;
        let changes = self.changes.compose(&next.changes)?;
        let first = self.extras();
        let second = next.extras();
        let extras = first.followed(alloc, second, &over, frame)?;
        Draft::of(changes, extras).boxed(alloc)
    }

    /// The draft and another over the same start document, where the draft's texts stand first.
    pub(crate) fn beside<M: EffectMaps<V>>(
        self,
        alloc: Global,
        next: Draft<V>,
        frame: &Frame<M>,
    ) -> Result<Box<Draft<V>>, TransactionError>
        requires meet { old_size next.changes ≡ old_size self.changes }
        requires inside { SelectionIn (new_size spelled self.changes) self.selection }
        requires next_inside { SelectionIn (new_size spelled next.changes) next.selection }
        requires frame { IsFrame (M.can_map frame.now.maps.now) (M.map_count frame.now.maps.now) frame.now.kinds.now frame.now.max }
        requires short { new_size spelled self.changes ≤ frame.now.max }
        requires next_short { new_size spelled next.changes ≤ frame.now.max }
        ensures value { IfOk result (λ draft. draft.value ≡ beside frame.now.kinds.now (M.map_value frame.now.maps.now) self next) }
        ensures is_draft { IfOk result (λ draft. IsDraft (old_size self.changes) draft.value) }
        ensures accepted { IfOk result (λ _. too_long frame.now.max (then_also spelled self.changes next.changes) ≡ None) }
        ensures refused { IfErr result (λ error. error ≢ TransactionError.NoMemory → too_long frame.now.max (then_also spelled self.changes next.changes) ≡ Some error) }
    {
        let both = join_changes(&self.changes, &next.changes, frame.max)?;
        let first = self.extras();
        let second = next.extras();
        let extras = first.beside(alloc, second, &both, frame)?;
        Ok(Draft::of(both.changes, extras).boxed(alloc)?)
    }
}
