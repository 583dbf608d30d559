use crate::meanings::Meanings;
use crate::numbered::Numbered;
use crate::update_view::UpdateView;
use crate::val::Val;
use std::alloc::AllocError;
use std::marker::PhantomData;
use std::sync::ledger::Ledger;
use steps::Steps;

/// The rule of a stored `Updater`. Its answer `None` says that the value is as before.
pub type UpdateBox = Box<dyn Fn(&Val, &UpdateView) -> Result<Option<Val>, AllocError>>;

/// A rule with its number: it gives the value of a field after a transaction, from the old value and what it reads in the new state.
#[derive(Drop)]
pub struct Updater<M> {
    number: u32,
    rule: UpdateBox,
    meanings: PhantomData<M>,
    // This says nothing: it names the box's predicates, so that clauses can speak of them.
    ghost named: { (p q : _) → UpdateBox.pre rule p q → UpdateBox.pre rule p q },
}

impl<M: Meanings> Updater<M> {
    ghost use Rattle.std.specs.Prelude.{◌≡◌, ◌+◌, IfOk, Option, Result, unwrap_or};
    ghost use Rattle.std.specs.Borrow.{Bor};
    ghost use Rattle.std.specs.Result.{ForOk};
    ghost use Rattle.std.specs.declared.alloc.AllocError.{AllocError};
    ghost use Rattle.values.specs.declared.val.Val.{Val};
    ghost use Rattle.values.specs.Stored.{IsUpdate, Updates};
    ghost use Rattle.values.specs.Vals.{IsOf};
    ghost use Rattle.values.specs.declared.update_view.UpdateView.{UpdateView};

    /// A rule of this number, which may be called on every input of its shapes, and whose answers there are the number's meaning:
    /// a new value, or `None` where the meaning is the old value.
    pub fn new(number: u32, rule: UpdateBox) -> Updater<M>
        requires callable { (p : Bor Val) (q : Bor UpdateView) → IsUpdate (M.rules.update_shape number) p.now q.now → UpdateBox.pre rule p q }
        requires meant { (p : Bor Val) (q : Bor UpdateView) (r : Result (Option Val) AllocError) → IsUpdate (M.rules.update_shape number) p.now q.now → UpdateBox.post rule p q r → ForOk r (λ answer. unwrap_or answer p.now ≡ M.rules.update number p.now q.now.transaction q.now.deps) }
        ensures number { result.number ≡ number }
        ensures updates { Updates M.rules result }
    {
        Updater {
            number,
            rule,
            meanings: PhantomData,
        }
    }

    /// Its number.
    pub fn number(&self) -> u32
        ensures { result ≡ self.now.number }
    {
        self.number
    }

    /// The new value of a field after a transaction, or `None` where it is as before. It counts as one call. `Err`: out of memory.
    pub fn call<L: Ledger>(
        &self,
        old: &Val,
        view: &UpdateView,
        calls: &mut Steps<L>,
    ) -> Result<Option<Val>, AllocError>
        requires updates { Updates M.rules self.now }
        requires fits { IsOf (M.rules.update_shape self.now.number) old.now }
        ensures value { IfOk result (λ answer. unwrap_or answer old.now ≡ M.rules.update self.now.number old.now view.now.transaction view.now.deps) }
        ensures counted { calls.new ≡ calls.old + 1 }
    {
        view.known();
        calls.tick();
        self.answer(old, view)
    }

    /// What the rule answers.
    fn answer(&self, old: &Val, view: &UpdateView) -> Result<Option<Val>, AllocError>
        requires meant { Updates M.rules self.now }
        requires known { IsUpdate (M.rules.update_shape self.now.number) old.now view.now }
        ensures { IfOk result (λ answer. unwrap_or answer old.now ≡ M.rules.update self.now.number old.now view.now.transaction view.now.deps) }
    {
        (self.rule)(old, view)
    }
}

impl<M> Numbered for Updater<M> {
    ghost use Rattle.std.specs.Prelude.{◌≡◌, ◌↔◌, IsTrue};

    ghost number_of = { λ c. c.number };

    fn has_number(&self, number: u32) -> bool {
        self.number == number
    }
}
