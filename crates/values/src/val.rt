ghost use Rattle.std.specs.Prelude.{◌≡◌, ◌↔◌, IfOk, IsTrue};
ghost use Rattle.cm_plain.specs.Shape.{form_of};
ghost use Rattle.values.specs.Equality.{equal};
ghost use Rattle.values.specs.InRange.{IsInRange};
ghost use Rattle.values.specs.Vals.{is_of, plain_of};

use crate::known::{known_plain, known_set, known_sets};
use cm_plain::{Plain, Shape};
use decoration::{DecoSet, Layers};
use history::History;
use std::alloc::{AllocError, Global};
use std::mem::size_of;
use transaction::EffectValue;

/// A value of a facet or a field: plain data, a set of decorations, layers of sets, or a history.
#[derive(Drop)]
pub enum Val {
    Plain(Plain),
    Ranges(DecoSet),
    Layers(Layers),
    History(History),
}

/// A value has 40 bytes, which each call that passes it on copies.
const _: () = prove!(size_of::<Val>() == 40);

impl Val {
    /// Whether both are equal.
    #[inline(always)]
    pub fn same(&self, other: &Val) -> bool
        ensures equal { IsTrue result ↔ (self.now ≡ other.now) }
        ensures value { result ≡ equal self.now other.now }
    {
        same_parts(self, other)
    }

    /// The same value once more. Sets, and the items of a history, are shared. `Err`: out of memory.
    #[inline(always)]
    pub fn try_copy(&self, alloc: Global) -> Result<Val, AllocError>
        ensures { IfOk result (λ copy. copy ≡ self.now) }
    {
        match self {
            Val::Plain(plain) => Ok(Val::Plain(plain.try_copy(alloc)?)),
            Val::Ranges(set) => Ok(Val::Ranges(set.try_copy()?)),
            Val::Layers(layers) => Ok(Val::Layers(layers.try_copy()?)),
            Val::History(history) => Ok(Val::History(history.try_copy()?)),
        }
    }

    /// What may be relied on in a value: its numbers lie in the ranges of their types. It reads them all.
    pub fn known(&self)
        ensures { IsInRange self.now }
    {
        match self {
            Val::Plain(plain) => known_plain(plain),
            Val::Ranges(set) => known_set(set),
            Val::Layers(layers) => known_sets(layers.sets()),
            Val::History(_) => {}
        }
    }

    /// Whether it is of the shape: plain data that the shape holds, or of the other kind that the shape names.
    pub fn is_of(&self, shape: &Shape) -> bool
        ensures { result ≡ is_of (form_of shape.now) self.now }
    {
        match (self, shape) {
            (Val::Plain(plain), _) => shape.holds(plain),
            (Val::Ranges(_), Shape::Ranges) => true,
            (Val::Layers(_), Shape::Layers) => true,
            (Val::History(_), Shape::History) => true,
            _ => false,
        }
    }
}

/// Whether both are of one kind and have equal parts.
fn same_parts(left: &Val, right: &Val) -> bool
    ensures { IsTrue result ↔ (left.now ≡ right.now) }
{
    match (left, right) {
        (Val::Plain(a), Val::Plain(b)) => a.same(b),
        (Val::Ranges(a), Val::Ranges(b)) => a.same(b),
        (Val::Layers(a), Val::Layers(b)) => a.same(b),
        (Val::History(a), Val::History(b)) => a.same(b),
        _ => false,
    }
}

impl EffectValue for Val {
    ghost plain = { plain_of };

    fn as_plain(&self) -> Option<&Plain> {
        match self {
            Val::Plain(plain) => Some(plain),
            _ => None,
        }
    }
}
