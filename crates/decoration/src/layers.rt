ghost use Rattle.std.specs.Prelude.{◌≡◌, ◌↔◌, [], length, IfOk, IsTrue};

use crate::deco::Deco;
use range_set::RangeSet;
use std::alloc::{AllocError, Global};
use std::marker::Model;

/// A set of decorations.
pub type DecoSet = RangeSet<Deco>;

/// Sets of decorations, of which the first has the highest precedence.
#[derive(Drop)]
pub struct Layers {
    sets: Vec<DecoSet>,
}

impl Model for Layers {
    ghost use Rattle.std.specs.Prelude.{List};
    ghost use Rattle.range_set.specs.declared.ranged.Ranged.{Ranged};
    ghost use Rattle.decoration.specs.declared.deco.Deco.{Deco};

    ghost Value = { List (List (Ranged Deco)) };

    ghost view = { λ l. l.sets.items };
}

impl Layers {
    /// No layers.
    pub fn empty(alloc: Global) -> Layers
        ensures { result ≡ [] }
    {
        Layers {
            sets: Vec::new(alloc),
        }
    }

    /// The layers of these sets, the highest precedence first.
    pub fn of(sets: Vec<DecoSet>) -> Layers
        ensures { result ≡ sets.items }
    {
        Layers { sets }
    }

    /// The sets, the highest precedence first.
    pub fn sets(&self) -> &[DecoSet]
        ensures { result.now ≡ self.now }
    {
        self.sets.as_slice()
    }

    /// Whether both have the same sets in the same order.
    pub fn same(&self, other: &Layers) -> bool
        ensures { IsTrue result ↔ (self.now ≡ other.now) }
    {
        same_sets(self.sets.as_slice(), other.sets.as_slice())
    }

    /// The same layers once more. `Err`: out of memory.
    pub fn try_copy(&self) -> Result<Layers, AllocError>
        ensures { IfOk result (λ copy. copy ≡ self.now) }
    {
        let sets = copied(*self.sets.allocator(), self.sets.as_slice())?;
        Ok(Layers { sets })
    }
}

/// Whether both have the same sets.
fn same_sets(left: &[DecoSet], right: &[DecoSet]) -> bool
    ensures { IsTrue result ↔ (left.now ≡ right.now) }
{
    if left.len() != right.len() {
        return false;
    }
    for (a, b) in left.iter().zip(right) {
        if !a.same(b) {
            return false;
        }
    }
    true
}

/// Copies of all sets.
fn copied(alloc: Global, sets: &[DecoSet]) -> Result<Vec<DecoSet>, AllocError>
    ensures { IfOk result (λ v. v.items ≡ sets.now) }
{
    let mut copies = Vec::with_capacity(alloc, sets.len())?;
    for set in sets {
        copies.push(set.try_copy()?)?;
    }
    Ok(copies)
}
