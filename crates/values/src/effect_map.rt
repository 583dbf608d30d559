use crate::meanings::Meanings;
use crate::numbered::Numbered;
use crate::val::Val;
use change_desc::Desc;
use std::alloc::AllocError;
use std::marker::PhantomData;

/// The rule of a stored `EffectMap`.
pub type EffectMapBox = Box<dyn Fn(Val, &Desc) -> Result<Option<Val>, AllocError>>;

/// A rule with its number: it maps the value of an effect over changes (Reference Manual, StateEffect.map).
#[derive(Drop)]
pub struct EffectMap<M> {
    number: u32,
    rule: EffectMapBox,
    meanings: PhantomData<M>,
    // This says nothing: it names the box's predicates, so that clauses can speak of them.
    ghost named: { (p q : _) → EffectMapBox.pre rule p q → EffectMapBox.pre rule p q },
}

impl<M: Meanings> EffectMap<M> {
    ghost use Rattle.std.specs.Prelude.{◌≡◌, ℕ, IfOk, List, Option, Result};
    ghost use Rattle.std.specs.Borrow.{Bor};
    ghost use Rattle.std.specs.Result.{ForOk};
    ghost use Rattle.std.specs.declared.alloc.AllocError.{AllocError};
    ghost use Rattle.change_desc.specs.declared.section.Section.{Section};
    ghost use Rattle.values.specs.declared.val.Val.{Val};
    ghost use Rattle.values.specs.InRange.{IsInRange};
    ghost use Rattle.values.specs.Stored.{MapsEffects};
    ghost use Rattle.values.specs.Views.{AreWithin};

    /// A rule of this number, which may be called on every input of its shapes, and whose answers there are the number's meaning.
    pub fn new(number: u32, rule: EffectMapBox) -> EffectMap<M>
        requires callable { (v : Val) (d : Bor (List (Section ℕ))) → IsInRange v → AreWithin d.now → EffectMapBox.pre rule v d }
        requires meant { (v : Val) (d : Bor (List (Section ℕ))) (r : Result (Option Val) AllocError) → IsInRange v → AreWithin d.now → EffectMapBox.post rule v d r → ForOk r (λ mapped. mapped ≡ M.rules.map_effect number v d.now) }
        ensures number { result.number ≡ number }
        ensures maps { MapsEffects M.rules result }
    {
        EffectMap {
            number,
            rule,
            meanings: PhantomData,
        }
    }

    /// Its number.
    pub fn number(&self) -> u32
        ensures { result ≡ self.now.number }
    {
        self.number
    }

    /// The value over changes of a document; `None`: the effect is dropped. `Err`: out of memory.
    pub fn call(&self, value: Val, changes: &Desc) -> Result<Option<Val>, AllocError>
        requires maps { MapsEffects M.rules self.now }
        requires within { AreWithin changes.now }
        ensures value { IfOk result (λ v. v ≡ M.rules.map_effect self.now.number value changes.now) }
    {
        value.known();
        (self.rule)(value, changes)
    }
}

impl<M> Numbered for EffectMap<M> {
    ghost use Rattle.std.specs.Prelude.{◌≡◌, ◌↔◌, IsTrue};

    ghost number_of = { λ c. c.number };

    fn has_number(&self, number: u32) -> bool {
        self.number == number
    }
}
