ghost use Rattle.std.specs.Prelude.{IfOk, IsTrue, None, [], ◌++◌, ◌<◌, ◌^◌, ◌≡◌, ◌≤◌, option_map};
ghost use Rattle.change_desc.specs.Sections.{counted, lengths, new_size, old_size, spelled};
ghost use Rattle.selection.specs.Selections.{moved_selection};
ghost use Rattle.transaction.specs.PrivateExtras.{both_extras, moved_extras};
ghost use Rattle.transaction.specs.Frames.{AreWithin, IsFrame};
ghost use Rattle.transaction.specs.PrivateMeetings.{back_of};
ghost use Rattle.transaction.specs.Merging.{SelectionIn};

use crate::annotation::Annotation;
use crate::effect::{Effect, moved_effects};
use crate::effect_maps::EffectMaps;
use crate::frame::Frame;
use crate::meeting::Meeting;
use change_desc::Desc;
use change_set::ChangeSet;
use listed::Listed;
use selection::Selection;
use std::alloc::{AllocError, Global};

/// What a draft has beside its changes.
#[derive(Drop)]
pub(crate) struct Extras<V> {
    pub(crate) selection: Option<Selection>,
    pub(crate) effects: Listed<Effect<V>>,
    pub(crate) annotations: Listed<Annotation>,
    pub(crate) filter: bool,
}

/// A selection after changes, if there is one.
fn moved_selection(
    selection: Option<Selection>,
    changes: &Desc,
) -> Result<Option<Selection>, AllocError>
    requires { SelectionIn (old_size changes.now) selection }
    ensures moved { IfOk result (λ moved. moved ≡ option_map (moved_selection changes.now) selection) }
    ensures inside { IfOk result (λ moved. SelectionIn (new_size counted changes.now) moved) }
{
    match selection {
        None => Ok(None),
        Some(selection) => Ok(Some(selection.map(changes)?)),
    }
}

/// One list after another.
fn appended<T: Drop>(first: Listed<T>, second: Listed<T>) -> Result<Listed<T>, AllocError>
    ensures { IfOk result (λ both. both ≡ first ++ second) }
{
    let mut items = first.into_vec();
    items.append(&mut second.into_vec())?;
    Ok(Listed::new(items))
}

impl<V: Drop> Extras<V> {
    /// Whether changes move nothing of them.
    fn is_bare(&self) -> bool
        ensures selection { IsTrue result → self.now.selection ≡ None }
        ensures effects { IsTrue result → self.now.effects ≡ [] }
    {
        self.selection.is_none() && self.effects.as_slice().is_empty()
    }

    /// The selection and the effects after further changes.
    fn moved<M: EffectMaps<V>>(
        self,
        alloc: Global,
        over: &Desc,
        frame: &Frame<M>,
    ) -> Result<Extras<V>, AllocError>
        requires inside { SelectionIn (old_size over.now) self.selection }
        requires frame { IsFrame (M.can_map frame.now.maps.now) (M.map_count frame.now.maps.now) frame.now.kinds.now frame.now.max }
        requires within { AreWithin frame.now.max over.now }
        ensures value { IfOk result (λ moved. moved ≡ moved_extras frame.now.kinds.now (M.map_value frame.now.maps.now) over.now self) }
        ensures inside { IfOk result (λ moved. SelectionIn (new_size counted over.now) moved.selection) }
    {
        let selection = moved_selection(self.selection, over)?;
        let effects = moved_effects(alloc, self.effects, over, frame)?;
        Ok(Extras {
            selection,
            effects,
            annotations: self.annotations,
            filter: self.filter,
        })
    }

    /// The selection and the effects after a further set of changes.
    fn after<M: EffectMaps<V>>(
        self,
        alloc: Global,
        changes: &ChangeSet,
        frame: &Frame<M>,
    ) -> Result<Extras<V>, AllocError>
        requires inside { SelectionIn (old_size changes.now) self.selection }
        requires frame { IsFrame (M.can_map frame.now.maps.now) (M.map_count frame.now.maps.now) frame.now.kinds.now frame.now.max }
        requires short { old_size changes.now ≤ frame.now.max }
        requires new_short { new_size spelled changes.now ≤ frame.now.max }
        ensures value { IfOk result (λ moved. moved ≡ moved_extras frame.now.kinds.now (M.map_value frame.now.maps.now) (lengths spelled changes.now) self) }
        ensures inside { IfOk result (λ moved. SelectionIn (new_size spelled changes.now) moved.selection) }
    {
        if self.is_bare() {
            return Ok(self);
        }
        let over = changes.desc()?;
        self.moved(alloc, &over, frame)
    }

    /// The selection and the effects after what the first of two sets of changes does to the new document of the second.
    fn after_first<M: EffectMaps<V>>(
        self,
        alloc: Global,
        both: &Meeting,
        frame: &Frame<M>,
    ) -> Result<Extras<V>, AllocError>
        requires meet { old_size both.now.theirs ≡ old_size both.now.mine }
        requires fits { new_size counted (back_of both.now) < 2 ^ 32 }
        requires inside { SelectionIn (old_size (back_of both.now)) self.selection }
        requires frame { IsFrame (M.can_map frame.now.maps.now) (M.map_count frame.now.maps.now) frame.now.kinds.now frame.now.max }
        requires within { AreWithin frame.now.max (back_of both.now) }
        ensures value { IfOk result (λ moved. moved ≡ moved_extras frame.now.kinds.now (M.map_value frame.now.maps.now) (back_of both.now) self) }
        ensures inside { IfOk result (λ moved. SelectionIn (new_size counted (back_of both.now)) moved.selection) }
    {
        if self.is_bare() {
            return Ok(self);
        }
        let back = both.mine.map(&both.theirs, true)?;
        self.moved(alloc, &back, frame)
    }

    /// These and those after them: the later selection counts, and one without filters stands for both.
    fn and_then(self, next: Extras<V>) -> Result<Extras<V>, AllocError>
        ensures { IfOk result (λ both. both ≡ both_extras self next) }
    {
        Ok(Extras {
            selection: next.selection.or(self.selection),
            effects: appended(self.effects, next.effects)?,
            annotations: appended(self.annotations, next.annotations)?,
            filter: self.filter && next.filter,
        })
    }

    /// These and others, each after what the other draft's changes do to it.
    pub(crate) fn beside<M: EffectMaps<V>>(
        self,
        alloc: Global,
        next: Extras<V>,
        both: &Meeting,
        frame: &Frame<M>,
    ) -> Result<Extras<V>, AllocError>
        requires meet { old_size both.now.theirs ≡ old_size both.now.mine }
        requires fits { new_size counted (back_of both.now) < 2 ^ 32 }
        requires same { new_size counted (back_of both.now) ≡ new_size spelled both.now.moved }
        requires inside { SelectionIn (old_size both.now.moved) self.selection }
        requires next_inside { SelectionIn (old_size (back_of both.now)) next.selection }
        requires frame { IsFrame (M.can_map frame.now.maps.now) (M.map_count frame.now.maps.now) frame.now.kinds.now frame.now.max }
        requires within { AreWithin frame.now.max (back_of both.now) }
        requires short { old_size both.now.moved ≤ frame.now.max }
        requires new_short { new_size spelled both.now.moved ≤ frame.now.max }
        ensures value { IfOk result (λ all. all ≡ both_extras (moved_extras frame.now.kinds.now (M.map_value frame.now.maps.now) (lengths spelled both.now.moved) self) (moved_extras frame.now.kinds.now (M.map_value frame.now.maps.now) (back_of both.now) next)) }
        ensures inside { IfOk result (λ all. SelectionIn (new_size spelled both.now.moved) all.selection) }
    {
        let moved = self.after(alloc, &both.moved, frame)?;
        let others = next.after_first(alloc, both, frame)?;
        Ok(moved.and_then(others)?)
    }

    /// These after further changes, and then those after them.
    pub(crate) fn followed<M: EffectMaps<V>>(
        self,
        alloc: Global,
        next: Extras<V>,
        over: &Desc,
        frame: &Frame<M>,
    ) -> Result<Extras<V>, AllocError>
        requires inside { SelectionIn (old_size over.now) self.selection }
        requires next_inside { SelectionIn (new_size counted over.now) next.selection }
        requires frame { IsFrame (M.can_map frame.now.maps.now) (M.map_count frame.now.maps.now) frame.now.kinds.now frame.now.max }
        requires within { AreWithin frame.now.max over.now }
        ensures value { IfOk result (λ all. all ≡ both_extras (moved_extras frame.now.kinds.now (M.map_value frame.now.maps.now) over.now self) next) }
        ensures inside { IfOk result (λ all. SelectionIn (new_size counted over.now) all.selection) }
    {
        let moved = self.moved(alloc, over, frame)?;
        Ok(moved.and_then(next)?)
    }
}
