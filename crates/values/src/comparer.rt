use crate::meanings::Meanings;
use crate::numbered::Numbered;
use crate::val::Val;
use std::marker::PhantomData;

/// The rule of a stored `Comparer`.
pub type CompareBox = Box<dyn Fn(&Val, &Val) -> bool>;

/// A rule with its number: it says of two values, an earlier and a later one, whether they are known to be the same. Then they are
/// equal.
#[derive(Drop)]
pub struct Comparer<M> {
    number: u32,
    reflexive: bool,
    rule: CompareBox,
    meanings: PhantomData<M>,
    // This says nothing: it names the box's predicates, so that clauses can speak of them.
    ghost named: { (p q : _) → CompareBox.pre rule p q → CompareBox.pre rule p q },
}

impl<M: Meanings> Comparer<M> {
    ghost use Rattle.std.specs.Prelude.{◌≡◌, Bool, IsTrue, true};
    ghost use Rattle.std.specs.Borrow.{Bor};
    ghost use Rattle.transaction.specs.Numbers.{IsNumber};
    ghost use Rattle.values.specs.declared.val.Val.{Val};
    ghost use Rattle.values.specs.Stored.{Compares};

    /// A rule of this number, which may be called on any two values, and whose answers are the number's meaning.
    pub fn new(number: u32, rule: CompareBox) -> Comparer<M>
        requires callable { (p q : Bor Val) → CompareBox.pre rule p q }
        requires meant { (p q : Bor Val) (r : Bool) → CompareBox.post rule p q r → r ≡ M.rules.compare number p.now q.now }
        ensures number { result.number ≡ number }
        ensures compares { Compares M.rules result }
    {
        Comparer {
            number,
            reflexive: false,
            rule,
            meanings: PhantomData,
        }
    }

    /// The same of a number that says 'same' of every value and itself.
    pub fn reflexive(number: u32, rule: CompareBox) -> Comparer<M>
        requires callable { (p q : Bor Val) → CompareBox.pre rule p q }
        requires meant { (p q : Bor Val) (r : Bool) → CompareBox.post rule p q r → r ≡ M.rules.compare number p.now q.now }
        requires reflexive { (v : Val) → M.rules.compare number v v ≡ true }
        ensures number { result.number ≡ number }
        ensures compares { Compares M.rules result }
        ensures reflexive { IsTrue result.reflexive }
    {
        Comparer {
            number,
            reflexive: true,
            rule,
            meanings: PhantomData,
        }
    }

    /// Its number.
    pub fn number(&self) -> u32
        ensures { result ≡ self.now.number }
    {
        self.number
    }

    /// Whether it is known to say 'same' of every value and itself.
    pub fn is_reflexive(&self) -> bool
        requires { Compares M.rules self.now }
        ensures flag { result ≡ self.now.reflexive }
        ensures same { IsTrue result → (v : Val) → M.rules.compare self.now.number v v ≡ true }
    {
        self.reflexive
    }

    /// Whether the values are known to be the same; then they are equal. Takes no memory.
    pub fn call(&self, old: &Val, new: &Val) -> bool
        requires { Compares M.rules self.now }
        ensures { result ≡ M.rules.compare self.now.number old.now new.now }
    {
        (self.rule)(old, new)
    }
}

impl<M> Numbered for Comparer<M> {
    ghost use Rattle.std.specs.Prelude.{◌≡◌, ◌↔◌, IsTrue};

    ghost number_of = { λ c. c.number };

    fn has_number(&self, number: u32) -> bool {
        self.number == number
    }
}
