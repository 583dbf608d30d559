use crate::deps::Deps;
use crate::meanings::Meanings;
use crate::numbered::Numbered;
use crate::val::Val;
use listed::Listed;
use std::alloc::AllocError;
use std::marker::PhantomData;
use std::sync::ledger::Ledger;
use steps::Steps;

/// The rule of a stored `ComputerN`.
pub type ComputeListBox = Box<dyn Fn(&Deps) -> Result<Listed<Val>, AllocError>>;

/// A rule with its number: it computes several inputs of a facet from what it reads.
#[derive(Drop)]
pub struct ComputerN<M> {
    number: u32,
    rule: ComputeListBox,
    meanings: PhantomData<M>,
    // This says nothing: it names the box's predicates, so that clauses can speak of them.
    ghost named: { (p : _) → ComputeListBox.pre rule p → ComputeListBox.pre rule p },
}

impl<M: Meanings> ComputerN<M> {
    ghost use Rattle.std.specs.Prelude.{◌≡◌, ◌+◌, IfOk, List, Result};
    ghost use Rattle.std.specs.Borrow.{Bor};
    ghost use Rattle.std.specs.Result.{ForOk};
    ghost use Rattle.std.specs.declared.alloc.AllocError.{AllocError};
    ghost use Rattle.values.specs.Stored.{ComputesLists};
    ghost use Rattle.values.specs.Views.{AreDeps, DepsView};

    /// A rule of this number, which may be called on every input of its shapes, and whose answers there are the number's meaning.
    pub fn new(number: u32, rule: ComputeListBox) -> ComputerN<M>
        requires callable { (p : Bor DepsView) → AreDeps p.now → ComputeListBox.pre rule p }
        requires meant { (p : Bor DepsView) (r : Result (List Val) AllocError) → AreDeps p.now → ComputeListBox.post rule p r → ForOk r (λ vs. vs ≡ M.rules.compute_list number p.now) }
        ensures number { result.number ≡ number }
        ensures computes { ComputesLists M.rules result }
    {
        ComputerN {
            number,
            rule,
            meanings: PhantomData,
        }
    }

    /// Its number.
    pub fn number(&self) -> u32
        ensures { result ≡ self.now.number }
    {
        self.number
    }

    /// The inputs, in order, computed from what is read. It counts as one call. `Err`: out of memory.
    pub fn call<L: Ledger>(
        &self,
        deps: &Deps,
        calls: &mut Steps<L>,
    ) -> Result<Listed<Val>, AllocError>
        requires computes { ComputesLists M.rules self.now }
        ensures value { IfOk result (λ v. v ≡ M.rules.compute_list self.now.number deps.now) }
        ensures counted { calls.new ≡ calls.old + 1 }
    {
        deps.known();
        calls.tick();
        (self.rule)(deps)
    }
}

impl<M> Numbered for ComputerN<M> {
    ghost use Rattle.std.specs.Prelude.{◌≡◌, ◌↔◌, IsTrue};

    ghost number_of = { λ c. c.number };

    fn has_number(&self, number: u32) -> bool {
        self.number == number
    }
}
