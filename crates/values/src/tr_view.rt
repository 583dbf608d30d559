ghost use Rattle.std.specs.Prelude.{◌≡◌, IfOk};
ghost use Rattle.std.specs.List.{AllByRecursion};
ghost use Rattle.values.specs.InRange.{IsShownInRange};
ghost use Rattle.values.specs.Views.{IsTransaction, TransactionView};

use crate::scene::Scene;
use crate::shown_effect::ShownEffect;
use crate::tr_core::TrCore;
use crate::tr_notes::TrNotes;
use change_set::ChangeSet;
use cm_plain::KeptEffect;
use line_tree::Text;
use listed::Listed;
use selection::Selection;
use std::alloc::{AllocError, Global};
use std::marker::Model;
use std::rc::Rc;
use transaction::Annotation;

/// What a rule is shown of a transaction (Reference Manual, Transaction). Contracts see documents as their characters. Neither
/// document has more than 16,777,216 characters, the changes lead from the start document to the new one, each selection is one
/// in normal form that lies in its document, and the numbers of effects and annotations lie in the ranges of their types.
/// `with_effects` makes a view that shares everything else with the one that it was made of.
#[derive(Drop)]
pub struct TrView {
    core: Rc<TrCore>,
    effects: Listed<ShownEffect>,
}

impl Model for TrView {
    ghost use Rattle.std.specs.Coded.{codes};
    ghost use Rattle.cm_plain.specs.Datum.{coded_datum};
    ghost use Rattle.values.specs.Views.{IsTransaction, TransactionView};
    ghost use Rattle.values.specs.Transactions.{viewed};

    ghost Value = { TransactionView };

    ghost coded = { Prim.hlevel (codes, coded_datum) };

    ghost view = { λ t. viewed t.core.value t.effects };

    ghost invariant = { λ t. IsTransaction (viewed t.core.value t.effects) };
}

impl TrView {
    ghost use Rattle.values.specs.Transactions.{shown};

    /// What is shown: the changes, the start and the new document with their selections, whether the new selection was given,
    /// and what else the transaction carries. `Err`: out of memory.
    #[inline(always)]
    pub fn new(
        alloc: Global,
        changes: ChangeSet,
        start: Scene,
        end: Scene,
        is_given: bool,
        notes: TrNotes,
    ) -> Result<TrView, AllocError>
        requires { IsTransaction (shown changes start end is_given notes) }
        ensures { IfOk result (λ t. t ≡ shown changes start end is_given notes) }
    {
        let effects = notes.effects;
        let core = TrCore {
            changes,
            start,
            end,
            is_given,
            inverted: notes.inverted,
            annotations: notes.annotations,
        };
        match Rc::new(alloc, core) {
            Ok(core) => Ok(TrView { core, effects }),
            Err(_) => Err(AllocError),
        }
    }

    /// The same transaction with these effects in place of its own. What else it shows is shared. `Err`: no further owner can be
    /// counted.
    pub fn with_effects(&self, effects: Listed<ShownEffect>) -> Result<TrView, AllocError>
        requires { AllByRecursion IsShownInRange effects }
        ensures { IfOk result (λ t. t ≡ record self.now { effects = effects }) }
    {
        let core = self.core.clone()?;
        Ok(TrView { core, effects })
    }

    /// The changes of the start document.
    pub fn changes(&self) -> &ChangeSet
        ensures { result.now ≡ self.now.changes }
    {
        &self.core.changes
    }

    /// The start document.
    pub fn start(&self) -> &Text
        ensures { result.now.characters ≡ self.now.start }
    {
        &self.core.start.document
    }

    /// The new document.
    pub fn document(&self) -> &Text
        ensures { result.now.characters ≡ self.now.document }
    {
        &self.core.end.document
    }

    /// The selection of the start document.
    pub fn start_selection(&self) -> &Selection
        ensures { result.now ≡ self.now.start_selection }
    {
        &self.core.start.selection
    }

    /// The selection of the new document.
    pub fn selection(&self) -> &Selection
        ensures { result.now ≡ self.now.selection }
    {
        &self.core.end.selection
    }

    /// Whether the transaction gives the new selection; else it is the start one, mapped.
    pub fn is_given(&self) -> bool
        ensures { result ≡ self.now.given }
    {
        self.core.is_given
    }

    /// The effects that the rule listens to, in order.
    pub fn effects(&self) -> &[ShownEffect]
        ensures { result.now ≡ self.now.effects }
    {
        self.effects.as_slice()
    }

    /// What undoes the transaction's effects, in the start document.
    pub fn inverted(&self) -> &[KeptEffect]
        ensures { result.now ≡ self.now.inverted }
    {
        self.core.inverted.as_slice()
    }

    /// The annotations, in order.
    pub fn annotations(&self) -> &[Annotation]
        ensures { result.now ≡ self.now.annotations }
    {
        self.core.annotations.as_slice()
    }

    /// What may be relied on in what is shown.
    pub fn known(&self)
        ensures { IsTransaction self.now }
    {
        let _ = &self.core;
    }
}
