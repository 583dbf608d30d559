use crate::answers::Guarding;
use crate::meanings::Meanings;
use crate::numbered::Numbered;
use crate::tr_view::TrView;
use crate::val::Val;
use std::alloc::AllocError;
use std::marker::PhantomData;

/// The rule of a stored `ChangeGuard`.
pub type GuardBox = Box<dyn Fn(&TrView, &Val) -> Result<Guarding, AllocError>>;

/// A rule with its number: it says which changes of a transaction may stay, from the transaction and the value of the facet `filterData`.
#[derive(Drop)]
pub struct ChangeGuard<M> {
    number: u32,
    rule: GuardBox,
    meanings: PhantomData<M>,
    // This says nothing: it names the box's predicates, so that clauses can speak of them.
    ghost named: { (p q : _) → GuardBox.pre rule p q → GuardBox.pre rule p q },
}

impl<M: Meanings> ChangeGuard<M> {
    ghost use Rattle.std.specs.Prelude.{◌≡◌, IfOk, Result};
    ghost use Rattle.std.specs.Borrow.{Bor};
    ghost use Rattle.std.specs.Result.{ForOk};
    ghost use Rattle.std.specs.declared.alloc.AllocError.{AllocError};
    ghost use Rattle.values.specs.declared.answers.Guarding.{Guarding};
    ghost use Rattle.values.specs.declared.val.Val.{Val};
    ghost use Rattle.values.specs.InRange.{IsInRange};
    ghost use Rattle.values.specs.Stored.{Guards};
    ghost use Rattle.values.specs.Views.{IsTransaction, TransactionView};

    /// A rule of this number, which may be called on every input of its shapes, and whose answers there are the number's meaning.
    pub fn new(number: u32, rule: GuardBox) -> ChangeGuard<M>
        requires callable { (t : Bor TransactionView) (v : Bor Val) → IsTransaction t.now → IsInRange v.now → GuardBox.pre rule t v }
        requires meant { (t : Bor TransactionView) (v : Bor Val) (r : Result Guarding AllocError) → IsTransaction t.now → IsInRange v.now → GuardBox.post rule t v r → ForOk r (λ a. a ≡ M.rules.guard number t.now v.now) }
        ensures number { result.number ≡ number }
        ensures guards { Guards M.rules result }
    {
        ChangeGuard {
            number,
            rule,
            meanings: PhantomData,
        }
    }

    /// Its number.
    pub fn number(&self) -> u32
        ensures { result ≡ self.now.number }
    {
        self.number
    }

    /// Which changes of the transaction may stay. `Err`: out of memory.
    pub fn call(&self, transaction: &TrView, filter_data: &Val) -> Result<Guarding, AllocError>
        requires guards { Guards M.rules self.now }
        requires in_range { IsInRange filter_data.now }
        ensures value { IfOk result (λ v. v ≡ M.rules.guard self.now.number transaction.now filter_data.now) }
    {
        transaction.known();
        (self.rule)(transaction, filter_data)
    }
}

impl<M> Numbered for ChangeGuard<M> {
    ghost use Rattle.std.specs.Prelude.{◌≡◌, ◌↔◌, IsTrue};

    ghost number_of = { λ c. c.number };

    fn has_number(&self, number: u32) -> bool {
        self.number == number
    }
}
