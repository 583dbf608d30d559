ghost use Rattle.std.specs.Prelude.{IfOk, IsTrue, None, [], is_none, length, pos, ◌↔◌, ◌≡◌, ◌≤◌};
ghost use Rattle.line_tree.specs.Text.{max_len};
ghost use Rattle.change_desc.specs.Sections.{new_size, old_size, spelled};
ghost use Rattle.selection.specs.Selections.{LieIn};
ghost use Rattle.history.specs.Histories.{empty, leads_from};
ghost use Rattle.history.specs.Items.{change_count, newest_change};
ghost use Rattle.history.specs.Reading.{restored_change, restored_item};
ghost use Rattle.history.specs.Restoring.{Restores};
ghost use Rattle.history.specs.Steps.{IsStep, case_of, cut_to, in_case, start_of, step};

use crate::lists::Lists;
use crate::restore::{Restore, restored_change, restored_item};
use crate::step_input::StepInput;
use std::alloc::{AllocError, Global};
use std::marker::Model;
use std::rc::Rc;

/// What can be undone and what can be done again in a document, each newest first (Reference Manual, history): changes with
/// their effects, and selections that were left. The newest changes that can be undone, which are also called a group, are open
/// to further changes or closed. The items of each list lead on from one document, and histories share them. It keeps its
/// allocator.
#[derive(Drop)]
pub struct History {
    lists: Rc<Lists>,
    alloc: Global,
}

impl Model for History {
    ghost use Rattle.history.specs.declared.lists.Lists.{Lists};
    ghost use Rattle.std.specs.Coded.{codes};
    ghost use Rattle.cm_plain.specs.Datum.{coded_datum};

    ghost Value = { Lists };

    ghost coded = { Prim.hlevel (codes, coded_datum) };

    ghost use Rattle.history.specs.Histories.{IsHistory};

    ghost view = { λ h. h.lists.value };

    ghost invariant = { λ h. IsHistory h.lists.value };
}

impl History {
    /// The history without items. `Err`: out of memory.
    pub fn empty(alloc: Global) -> Result<History, AllocError>
        ensures { IfOk result (λ h. h ≡ empty) }
    {
        Ok(History {
            lists: Rc::new(alloc, Lists::empty())?,
            alloc,
        })
    }

    /// How many Changes can be undone, and how many can be done again (Reference Manual, undoDepth, redoDepth).
    pub fn depth(&self) -> (usize, usize)
        ensures done { result.0 ≡ change_count self.now.done }
        ensures undone { result.1 ≡ change_count self.now.undone }
    {
        (
            self.lists.done.change_count(),
            self.lists.undone.change_count(),
        )
    }

    /// How many items, Changes and Selects, can be undone, and how many can be done again.
    pub fn items(&self) -> (usize, usize)
        ensures done { result.0 ≡ length self.now.done }
        ensures undone { result.1 ≡ length self.now.undone }
    {
        (self.lists.done.len(), self.lists.undone.len())
    }

    /// Whether the newest Change of each list that has one starts in a document of `len` characters, in which each newer Select
    /// lies.
    #[inline(always)]
    pub fn leads_from(&self, len: u32) -> bool
        ensures { result ≡ leads_from len self.now }
    {
        self.lists.leads_from(len)
    }

    /// What an undo sends: the newest Change, or nothing where none can be undone (Reference Manual, undo). `Err`: out of
    /// memory.
    pub fn undo_spec(&self) -> Result<Option<Restore>, AllocError>
        ensures value { IfOk result (λ spec. spec ≡ restored_change (pos 0) self.now.done) }
        ensures none { IfOk result (λ spec. IsTrue (is_none spec) ↔ (newest_change self.now.done ≡ None)) }
    {
        restored_change(self.alloc, 0, &self.lists.done)
    }

    /// What a redo sends: the newest Change that was undone, or nothing where there is none (Reference Manual, redo). `Err`:
    /// out of memory.
    pub fn redo_spec(&self) -> Result<Option<Restore>, AllocError>
        ensures value { IfOk result (λ spec. spec ≡ restored_change (pos 1) self.now.undone) }
        ensures none { IfOk result (λ spec. IsTrue (is_none spec) ↔ (newest_change self.now.undone ≡ None)) }
    {
        restored_change(self.alloc, 1, &self.lists.undone)
    }

    /// What an undo over selections sends: the newest item, or nothing where none can be undone (Reference Manual,
    /// undoSelection). `Err`: out of memory.
    pub fn undo_selection_spec(&self) -> Result<Option<Restore>, AllocError>
        ensures value { IfOk result (λ spec. spec ≡ restored_item (pos 0) (pos 2) self.now.done) }
        ensures none { IfOk result (λ spec. IsTrue (is_none spec) ↔ (self.now.done ≡ [])) }
    {
        restored_item(self.alloc, 0, 2, &self.lists.done)
    }

    /// What a redo over selections sends: the newest item that was undone, or nothing where there is none (Reference Manual,
    /// redoSelection). `Err`: out of memory.
    pub fn redo_selection_spec(&self) -> Result<Option<Restore>, AllocError>
        ensures value { IfOk result (λ spec. spec ≡ restored_item (pos 1) (pos 3) self.now.undone) }
        ensures none { IfOk result (λ spec. IsTrue (is_none spec) ↔ (self.now.undone ≡ [])) }
    {
        restored_item(self.alloc, 1, 3, &self.lists.undone)
    }

    /// Whether both have the same items and their groups are as open.
    pub fn same(&self, other: &History) -> bool
        ensures { IsTrue result ↔ (self.now ≡ other.now) }
    {
        self.lists.same(&other.lists)
    }

    /// The same history once more, which shares its lists. `Err`: no further owner can be counted.
    pub fn try_copy(&self) -> Result<History, AllocError>
        ensures { IfOk result (λ copy. copy ≡ self.now) }
    {
        Ok(History {
            lists: self.lists.clone()?,
            alloc: self.alloc,
        })
    }

    /// The history after a step of its document (Reference Manual, history). A history that doesn't lead from the start document
    /// counts as empty. A step that comes from an undo or a redo moves an item to the other list; a selection that is left may
    /// be kept; changes and effects that are not recorded move all items; those that are recorded join the group or make a new
    /// one. `Err`: out of memory.
    pub fn step(&self, input: &StepInput) -> Result<History, AllocError>
        requires starts { old_size input.now.changes ≡ length input.now.document.characters }
        requires short { length input.now.document.characters ≤ max_len }
        requires new_short { new_size spelled input.now.changes ≤ max_len }
        requires inside { LieIn (length input.now.document.characters) input.now.selection.ranges }
        ensures value { IfOk result (λ next. next ≡ step self.now input.now) }
        ensures leads { IfOk result (λ next. IsTrue (leads_from (new_size spelled input.now.changes) next)) }
        ensures restores { IfOk result (λ next. Restores (start_of self.now input.now) input.now next) }
    {
        // The proof takes from this line what the type keeps of its lists.
        let _lists = &self.lists;
        if self.leads_from(input.document.len()) {
            return self.next(input);
        }
        let start = History::empty(self.alloc)?;
        start.next(input)
    }

    /// The history after a step from the document that it leads from.
    fn next(&self, input: &StepInput) -> Result<History, AllocError>
        requires step { IsStep input.now }
        requires leads { IsTrue (leads_from (length input.now.document.characters) self.now) }
        ensures { IfOk result (λ next. next ≡ cut_to input.now.min_depth (in_case (case_of self.now input.now) self.now input.now)) }
    {
        let old: &Lists = &self.lists;
        let case = old.case_of(input);
        let next = old.in_case(self.alloc, case, input)?;
        let lists = next.cut(self.alloc, input.min_depth)?;
        let lists = Rc::new(self.alloc, lists)?;
        Ok(History {
            lists,
            alloc: self.alloc,
        })
    }
}
