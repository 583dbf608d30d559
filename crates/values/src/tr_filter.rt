use crate::answers::Filtering;
use crate::meanings::Meanings;
use crate::numbered::Numbered;
use crate::tr_view::TrView;
use crate::val::Val;
use std::alloc::AllocError;
use std::marker::PhantomData;

/// The rule of a stored `TrFilter`.
pub type FilterBox = Box<dyn Fn(&TrView, &Val) -> Result<Filtering, AllocError>>;

/// A rule with its number: it says what stands in place of a transaction, from the transaction and the value of the facet `filterData`.
#[derive(Drop)]
pub struct TrFilter<M> {
    number: u32,
    rule: FilterBox,
    meanings: PhantomData<M>,
    // This says nothing: it names the box's predicates, so that clauses can speak of them.
    ghost named: { (p q : _) → FilterBox.pre rule p q → FilterBox.pre rule p q },
}

impl<M: Meanings> TrFilter<M> {
    ghost use Rattle.std.specs.Prelude.{◌≡◌, IfOk, Result};
    ghost use Rattle.std.specs.Borrow.{Bor};
    ghost use Rattle.std.specs.Result.{ForOk};
    ghost use Rattle.std.specs.declared.alloc.AllocError.{AllocError};
    ghost use Rattle.values.specs.declared.answers.Filtering.{Filtering};
    ghost use Rattle.values.specs.declared.val.Val.{Val};
    ghost use Rattle.values.specs.InRange.{IsInRange};
    ghost use Rattle.values.specs.Stored.{Filters};
    ghost use Rattle.values.specs.Views.{IsTransaction, TransactionView};

    /// A rule of this number, which may be called on every input of its shapes, and whose answers there are the number's meaning.
    pub fn new(number: u32, rule: FilterBox) -> TrFilter<M>
        requires callable { (t : Bor TransactionView) (v : Bor Val) → IsTransaction t.now → IsInRange v.now → FilterBox.pre rule t v }
        requires meant { (t : Bor TransactionView) (v : Bor Val) (r : Result Filtering AllocError) → IsTransaction t.now → IsInRange v.now → FilterBox.post rule t v r → ForOk r (λ a. a ≡ M.rules.filter number t.now v.now) }
        ensures number { result.number ≡ number }
        ensures filters { Filters M.rules result }
    {
        TrFilter {
            number,
            rule,
            meanings: PhantomData,
        }
    }

    /// Its number.
    pub fn number(&self) -> u32
        ensures { result ≡ self.now.number }
    {
        self.number
    }

    /// What stands in place of the transaction. `Err`: out of memory.
    pub fn call(&self, transaction: &TrView, filter_data: &Val) -> Result<Filtering, AllocError>
        requires filters { Filters M.rules self.now }
        requires in_range { IsInRange filter_data.now }
        ensures value { IfOk result (λ v. v ≡ M.rules.filter self.now.number transaction.now filter_data.now) }
    {
        transaction.known();
        (self.rule)(transaction, filter_data)
    }
}

impl<M> Numbered for TrFilter<M> {
    ghost use Rattle.std.specs.Prelude.{◌≡◌, ◌↔◌, IsTrue};

    ghost number_of = { λ c. c.number };

    fn has_number(&self, number: u32) -> bool {
        self.number == number
    }
}
