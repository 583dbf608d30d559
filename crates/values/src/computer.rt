use crate::deps::Deps;
use crate::meanings::Meanings;
use crate::numbered::Numbered;
use crate::val::Val;
use std::alloc::AllocError;
use std::marker::PhantomData;
use std::sync::ledger::Ledger;
use steps::Steps;

/// The rule of a stored `Computer`.
pub type ComputeBox = Box<dyn Fn(&Deps) -> Result<Val, AllocError>>;

/// A rule with its number: it computes an input of a facet from what it reads.
#[derive(Drop)]
pub struct Computer<M> {
    number: u32,
    rule: ComputeBox,
    meanings: PhantomData<M>,
    // This says nothing: it names the box's predicates, so that clauses can speak of them.
    ghost named: { (p : _) → ComputeBox.pre rule p → ComputeBox.pre rule p },
}

impl<M: Meanings> Computer<M> {
    ghost use Rattle.std.specs.Prelude.{◌≡◌, ◌+◌, IfOk, Result};
    ghost use Rattle.std.specs.Borrow.{Bor};
    ghost use Rattle.std.specs.Result.{ForOk};
    ghost use Rattle.std.specs.declared.alloc.AllocError.{AllocError};
    ghost use Rattle.values.specs.Stored.{Computes};
    ghost use Rattle.values.specs.Views.{AreDeps, DepsView};

    /// A rule of this number, which may be called on every input of its shapes, and whose answers there are the number's meaning.
    pub fn new(number: u32, rule: ComputeBox) -> Computer<M>
        requires callable { (p : Bor DepsView) → AreDeps p.now → ComputeBox.pre rule p }
        requires meant { (p : Bor DepsView) (r : Result Val AllocError) → AreDeps p.now → ComputeBox.post rule p r → ForOk r (λ v. v ≡ M.rules.compute number p.now) }
        ensures number { result.number ≡ number }
        ensures computes { Computes M.rules result }
    {
        Computer {
            number,
            rule,
            meanings: PhantomData,
        }
    }

    /// Its number.
    pub fn number(&self) -> u32
        ensures { result ≡ self.now.number }
    {
        self.number
    }

    /// The input, computed from what is read. It counts as one call. `Err`: out of memory.
    pub fn call<L: Ledger>(&self, deps: &Deps, calls: &mut Steps<L>) -> Result<Val, AllocError>
        requires computes { Computes M.rules self.now }
        ensures value { IfOk result (λ v. v ≡ M.rules.compute self.now.number deps.now) }
        ensures counted { calls.new ≡ calls.old + 1 }
    {
        deps.known();
        calls.tick();
        self.answer(deps)
    }

    /// What the rule answers.
    fn answer(&self, deps: &Deps) -> Result<Val, AllocError>
        requires meant { Computes M.rules self.now }
        requires known { AreDeps deps.now }
        ensures { IfOk result (λ v. v ≡ M.rules.compute self.now.number deps.now) }
    {
        (self.rule)(deps)
    }
}

impl<M> Numbered for Computer<M> {
    ghost use Rattle.std.specs.Prelude.{◌≡◌, ◌↔◌, IsTrue};

    ghost number_of = { λ c. c.number };

    fn has_number(&self, number: u32) -> bool {
        self.number == number
    }
}
