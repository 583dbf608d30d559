use crate::meanings::Meanings;
use crate::numbered::Numbered;
use crate::val::Val;
use std::alloc::AllocError;
use std::marker::PhantomData;
use std::sync::ledger::Ledger;
use steps::Steps;

/// The rule of a stored `Combiner`.
pub type CombineBox = Box<dyn Fn(&[Val]) -> Result<Val, AllocError>>;

/// A rule with its number: it combines the values of a facet's inputs, in order, to its value.
#[derive(Drop)]
pub struct Combiner<M> {
    number: u32,
    rule: CombineBox,
    meanings: PhantomData<M>,
    // This says nothing: it names the box's predicates, so that clauses can speak of them.
    ghost named: { (p : _) → CombineBox.pre rule p → CombineBox.pre rule p },
}

impl<M: Meanings> Combiner<M> {
    ghost use Rattle.std.specs.Prelude.{◌≡◌, ◌+◌, All, IfOk, List, Result};
    ghost use Rattle.std.specs.Borrow.{Bor};
    ghost use Rattle.std.specs.Result.{ForOk};
    ghost use Rattle.std.specs.declared.alloc.AllocError.{AllocError};
    ghost use Rattle.values.specs.Stored.{Combines};
    ghost use Rattle.values.specs.Vals.{IsOf};

    /// A rule of this number, which may be called on every input of its shapes, and whose answers there are the number's meaning.
    pub fn new(number: u32, rule: CombineBox) -> Combiner<M>
        requires callable { (p : Bor (List Val)) → All (IsOf (M.rules.combine_input number)) p.now → CombineBox.pre rule p }
        requires meant { (p : Bor (List Val)) (r : Result Val AllocError) → All (IsOf (M.rules.combine_input number)) p.now → CombineBox.post rule p r → ForOk r (λ v. v ≡ M.rules.combine number p.now) }
        ensures number { result.number ≡ number }
        ensures combines { Combines M.rules result }
    {
        Combiner {
            number,
            rule,
            meanings: PhantomData,
        }
    }

    /// Its number.
    pub fn number(&self) -> u32
        ensures { result ≡ self.now.number }
    {
        self.number
    }

    /// The value of a facet with these inputs, in order. It counts as one call. `Err`: out of memory.
    pub fn call<L: Ledger>(&self, inputs: &[Val], calls: &mut Steps<L>) -> Result<Val, AllocError>
        requires combines { Combines M.rules self.now }
        requires fits { All (IsOf (M.rules.combine_input self.now.number)) inputs.now }
        ensures value { IfOk result (λ v. v ≡ M.rules.combine self.now.number inputs.now) }
        ensures counted { calls.new ≡ calls.old + 1 }
    {
        calls.tick();
        (self.rule)(inputs)
    }
}

impl<M> Numbered for Combiner<M> {
    ghost use Rattle.std.specs.Prelude.{◌≡◌, ◌↔◌, IsTrue};

    ghost number_of = { λ c. c.number };

    fn has_number(&self, number: u32) -> bool {
        self.number == number
    }
}
