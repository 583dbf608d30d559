ghost use Rattle.std.specs.Prelude.{IfOk, cond, length, option_copied, ◌++◌, ◌∷◌, ◌≡◌};
ghost use Rattle.change_desc.specs.Sections.{lengths, old_size, spelled};
ghost use Rattle.kept_effects.specs.MappedValues.{moved_effects};
ghost use Rattle.history.specs.Histories.{LeadOn};
ghost use Rattle.history.specs.Joining.{closes_after, joins};
ghost use Rattle.history.specs.Selecting.{first_select, makes_select, select_at, with_left};
ghost use Rattle.history.specs.Steps.{IsStep, in_case, joined_change, joined_to, way_back};

use crate::case::Case;
use crate::group::Group;
use crate::isolation::Isolation;
use crate::item::{ChangeItem, Item, SelectItem};
use crate::items::Items;
use crate::lists::{Lists, group_if};
use crate::moving::items_over;
use crate::step_input::{StepInput, copied, copied_event};
use cm_plain::KeptEffect;
use kept_effects::moved_effects;
use listed::Listed;
use std::alloc::{AllocError, Global};

impl Lists {
    /// What its case makes of the lists.
    pub(crate) fn in_case(
        &self,
        alloc: Global,
        case: Case,
        input: &StepInput,
    ) -> Result<Lists, AllocError>
        requires step { IsStep input.now }
        requires done { LeadOn (length input.now.document.characters) self.now.done }
        requires undone { LeadOn (length input.now.document.characters) self.now.undone }
        ensures { IfOk result (λ next. next ≡ in_case case self.now input.now) }
    {
        match case {
            Case::Undo => self.undo(alloc, input),
            Case::Redo => self.redo(alloc, input),
            Case::UndoSelection => self.undo_selection(alloc, input),
            Case::RedoSelection => self.redo_selection(alloc, input),
            Case::Unchanged => self.unchanged(alloc, input),
            Case::Unrecorded => self.unrecorded(alloc, input),
            Case::Recorded => self.recorded(alloc, input),
        }
    }

    /// The newest Change is undone.
    fn undo(&self, alloc: Global, input: &StepInput) -> Result<Lists, AllocError>
        requires { IsStep input.now }
        ensures { IfOk result (λ next. next ≡ in_case Case.Undo self.now input.now) }
    {
        let change = input.way_back(alloc)?;
        Ok(Lists {
            done: self.done.older()?,
            undone: self.undone.with_first(alloc, Item::Change(change))?,
            group: Group::Closed,
        })
    }

    /// The newest undone Change is done again.
    fn redo(&self, alloc: Global, input: &StepInput) -> Result<Lists, AllocError>
        requires { IsStep input.now }
        ensures { IfOk result (λ next. next ≡ in_case Case.Redo self.now input.now) }
    {
        let change = input.way_back(alloc)?;
        Ok(Lists {
            done: self.done.with_first(alloc, Item::Change(change))?,
            undone: self.undone.older()?,
            group: Group::Closed,
        })
    }

    /// The selection goes back to the newest one that was left.
    fn undo_selection(&self, alloc: Global, input: &StepInput) -> Result<Lists, AllocError>
        ensures { IfOk result (λ next. next ≡ in_case Case.UndoSelection self.now input.now) }
    {
        let select = input.start_select()?;
        Ok(Lists {
            done: self.done.without_first()?,
            undone: self.undone.with_first(alloc, Item::Select(select))?,
            group: Group::Closed,
        })
    }

    /// The selection goes to the newest one that was gone back from.
    fn redo_selection(&self, alloc: Global, input: &StepInput) -> Result<Lists, AllocError>
        ensures { IfOk result (λ next. next ≡ in_case Case.RedoSelection self.now input.now) }
    {
        let select = input.start_select()?;
        Ok(Lists {
            done: self.done.with_first(alloc, Item::Select(select))?,
            undone: self.undone.without_first()?,
            group: Group::Closed,
        })
    }

    /// Nothing is changed; a given selection closes the group, and the one that is left may be kept.
    fn unchanged(&self, alloc: Global, input: &StepInput) -> Result<Lists, AllocError>
        ensures { IfOk result (λ next. next ≡ in_case Case.Unchanged self.now input.now) }
    {
        Ok(Lists {
            done: self.done_with_left(alloc, input)?,
            undone: self.undone.share()?,
            group: group_if(input.given.is_none(), self.group),
        })
    }

    /// What can be undone, with the selection that is left, where it is kept.
    fn done_with_left(&self, alloc: Global, input: &StepInput) -> Result<Items, AllocError>
        ensures { IfOk result (λ done. done ≡ cond (makes_select input.now) (with_left input.now self.now.done) self.now.done) }
    {
        if input.makes_select() {
            with_left(alloc, input, &self.done)
        } else {
            self.done.share()
        }
    }

    /// All items are moved over changes that are not recorded.
    fn unrecorded(&self, alloc: Global, input: &StepInput) -> Result<Lists, AllocError>
        requires step { IsStep input.now }
        requires done { LeadOn (length input.now.document.characters) self.now.done }
        requires undone { LeadOn (length input.now.document.characters) self.now.undone }
        ensures { IfOk result (λ next. next ≡ in_case Case.Unrecorded self.now input.now) }
    {
        let over = input.changes.desc()?;
        let done = items_over(alloc, &self.done, &over)?;
        let undone = items_over(alloc, &self.undone, &over)?;
        Ok(Lists {
            done: done.items,
            undone: undone.items,
            group: group_if(done.newest_stays, self.group),
        })
    }

    /// Changes and effects are recorded.
    fn recorded(&self, alloc: Global, input: &StepInput) -> Result<Lists, AllocError>
        requires step { IsStep input.now }
        requires done { LeadOn (length input.now.document.characters) self.now.done }
        ensures { IfOk result (λ next. next ≡ in_case Case.Recorded self.now input.now) }
    {
        Ok(Lists {
            done: self.done_after(alloc, input)?,
            undone: Items::empty(),
            group: group_after(input),
        })
    }

    /// What can be undone after recorded changes and effects.
    #[inline(always)]
    fn done_after(&self, alloc: Global, input: &StepInput) -> Result<Items, AllocError>
        requires step { IsStep input.now }
        requires done { LeadOn (length input.now.document.characters) self.now.done }
        ensures { IfOk result (λ done. done ≡ cond (joins self.now input.now) (joined_to (way_back input.now) self.now.done) (Item.Change (way_back input.now) ∷ self.now.done)) }
    {
        if self.is_joined(input)? {
            return joined_to(alloc, input, &self.done);
        }
        let change = input.way_back(alloc)?;
        self.done.with_first(alloc, Item::Change(change))
    }

    /// Whether a step joins the group.
    fn is_joined(&self, input: &StepInput) -> Result<bool, AllocError>
        ensures { IfOk result (λ joins_it. joins_it ≡ joins self.now input.now) }
    {
        if input.is_soon(self.group)
            && input.is_joinable()
            && !Isolation::is_before(input.isolate)
        {
            return input.is_near(&self.done);
        }
        Ok(false)
    }
}

/// Whether the group of recorded changes is open after them.
fn group_after(input: &StepInput) -> Group
    ensures { result ≡ cond (closes_after input.now.isolate) Group.Closed (Group.Open input.now.time) }
{
    if Isolation::is_after(input.isolate) {
        Group::Closed
    } else {
        Group::Open { last: input.time }
    }
}

/// The way back of a step put after a Change: its effects are mapped over that Change's and stand before them, and the older
/// selection stays.
fn joined_change(
    alloc: Global,
    input: &StepInput,
    change: &ChangeItem,
) -> Result<ChangeItem, AllocError>
    requires starts { old_size input.now.changes ≡ length input.now.document.characters }
    requires meets { length input.now.document.characters ≡ old_size change.now.changes }
    ensures { IfOk result (λ joined. joined ≡ joined_change (way_back input.now) change.now) }
{
    let back = input.changes.invert(input.document)?;
    Ok(ChangeItem {
        changes: back.compose(&change.changes)?,
        effects: joined_effects(alloc, input, change)?,
        selection: change.selection.try_copy()?,
    })
}

/// The effects of a step over the changes of a Change, and then those of the Change.
fn joined_effects(
    alloc: Global,
    input: &StepInput,
    change: &ChangeItem,
) -> Result<Listed<KeptEffect>, AllocError>
    ensures { IfOk result (λ effects. effects ≡ moved_effects (lengths spelled change.now.changes) input.now.effects ++ change.now.effects) }
{
    let over = change.changes.desc()?;
    let mut effects = moved_effects(alloc, input.effects, &over)?.into_vec();
    let mut others = copied(alloc, change.effects.as_slice())?.into_vec();
    effects.append(&mut others)?;
    Ok(Listed::new(effects))
}

/// The way back of a step put after the newest item, where that is a Change, else before all.
fn joined_to(alloc: Global, input: &StepInput, items: &Items) -> Result<Items, AllocError>
    requires step { IsStep input.now }
    requires leads { LeadOn (length input.now.document.characters) items.now }
    ensures { IfOk result (λ joined. joined ≡ joined_to (way_back input.now) items.now) }
{
    match items.first_change() {
        None => {
            let change = input.way_back(alloc)?;
            items.with_first(alloc, Item::Change(change))
        }
        Some(change) => {
            let joined = joined_change(alloc, input, change)?;
            items
                .without_first()?
                .with_first(alloc, Item::Change(joined))
        }
    }
}

/// A Select at another time.
fn select_at(select: &SelectItem, time: Option<i64>) -> Result<SelectItem, AllocError>
    ensures { IfOk result (λ moved. moved ≡ select_at time select.now) }
{
    Ok(SelectItem {
        selection: select.selection.try_copy()?,
        time,
        user_event: copied_event(select.user_event.as_ref())?,
    })
}

/// Items with the selection that a step leaves: the newest Select takes the new time where it joins it, else it stands before
/// all.
fn with_left(alloc: Global, input: &StepInput, items: &Items) -> Result<Items, AllocError>
    ensures { IfOk result (λ all. all ≡ with_left input.now items.now) }
{
    match items.first_select() {
        Some(select) if input.select_joins(select) => {
            let joined = select_at(select, input.time)?;
            items
                .without_first()?
                .with_first(alloc, Item::Select(joined))
        }
        _ => items.with_first(alloc, Item::Select(input.left_select()?)),
    }
}
