ghost use Rattle.std.specs.Prelude.{◌≡◌, ◌↔◌, ◌≤◌, ◌<◌, map, IfOk, IsOk, IsErr, IsTrue};
ghost use Rattle.cm_plain.specs.Datum.{depth, deepest, data_of, list, max_depth};
ghost use Rattle.cm_plain.specs.Plain.{datum_of};

use crate::text::Str;
use std::alloc::{AllocError, Global};
use std::marker::Model;

/// How deep a value may be: a value that is no list, and an empty list, have depth 1.
pub const MAX_DEPTH: u32 = 16;

/// A value: nothing, a truth value, a whole number, a text, or a list of values.
///
/// A value that is no list has depth 1, as an empty list has; another list is one deeper than its deepest item. No
/// value is more than 16 deep.
#[cycle(plain)]
#[derive(Debug, Drop)]
pub enum Plain {
    Unit,
    Bool(bool),
    Int(i64),
    Text(Str),
    List(PlainList),
}

/// A list of values, of which none is more than 15 deep.
#[cycle(plain)]
#[derive(Debug, Drop)]
pub struct PlainList {
    items: Vec<Plain>,
}

impl Model for PlainList {
    ghost use Rattle.std.specs.Prelude.{List};
    ghost use Rattle.cm_plain.specs.Datum.{Datum, coded_data};

    ghost Value = { List Datum };

    ghost coded = { coded_data };

    ghost use Rattle.std.specs.Prelude.{ℕ, ◌<◌, map};
    ghost use Rattle.cm_plain.specs.Datum.{deepest, data_of, max_depth};
    ghost use Rattle.cm_plain.specs.Plain.{datum_of};

    ghost view = { λ a. map datum_of a.items.items };

    ghost invariant = { λ a. deepest (data_of (map datum_of a.items.items)) < max_depth };

    ghost size = { λ xs. deepest (data_of xs) };

    ghost use Rattle.std.proofs.Common.{arith};
    ghost use Rattle.cm_plain.specs.PlainFalls.{most_le-deepest};

    ghost size_decreases = { λ a h. Prim.omega (arith, most_le-deepest a.items.items) };
}

/// A list would be more than 16 deep.
#[derive(Debug, Drop, PartialEq, Eq, thiserror::Error)]
#[error("a list is more than 16 deep")]
pub struct TooDeep;

impl Plain {
    /// The list of these values, in order. `TooDeep`: exactly where it would be more than 16 deep.
    pub fn list(items: Vec<Plain>) -> Result<Plain, TooDeep>
        ensures ok { IfOk result (λ p. p ≡ Plain.List (map datum_of items.items)) }
        ensures fits { IsOk result → depth (list (data_of (map datum_of items.items))) ≤ max_depth }
        ensures too_deep { IsErr result → max_depth < depth (list (data_of (map datum_of items.items))) }
    {
        if deepest_of(items.as_slice()) >= MAX_DEPTH {
            return Err(TooDeep);
        }
        Ok(Plain::List(PlainList { items }))
    }

    /// How deep the value is, from 1 to 16.
    #[cycle(depth)]
    pub fn depth(&self) -> u32
        ensures value { result ≡ depth (datum_of self.now) }
        ensures bound { result ≤ max_depth }
    {
        match self {
            Plain::List(list) => list.deepest() + 1,
            _ => 1,
        }
    }

    /// Whether both are the same value.
    #[cycle(same)]
    pub fn same(&self, other: &Plain) -> bool
        ensures { IsTrue result ↔ (self.now ≡ other.now) }
    {
        match (self, other) {
            (Plain::Unit, Plain::Unit) => true,
            (Plain::Bool(a), Plain::Bool(b)) => *a == *b,
            (Plain::Int(a), Plain::Int(b)) => *a == *b,
            (Plain::Text(a), Plain::Text(b)) => a.same(b),
            (Plain::List(a), Plain::List(b)) => a.same(b),
            _ => false,
        }
    }

    /// The same value once more. `Err`: out of memory.
    #[cycle(copy)]
    pub fn try_copy(&self, alloc: Global) -> Result<Plain, AllocError>
        ensures { IfOk result (λ p. p ≡ self.now) }
    {
        match self {
            Plain::Unit => Ok(Plain::Unit),
            Plain::Bool(b) => Ok(Plain::Bool(*b)),
            Plain::Int(n) => Ok(Plain::Int(*n)),
            Plain::Text(text) => Ok(Plain::Text(text.try_copy()?)),
            Plain::List(list) => Ok(Plain::List(list.try_copy()?)),
        }
    }
}

impl PlainList {
    /// The values, in order.
    pub fn as_slice(&self) -> &[Plain]
        ensures { map datum_of result.now ≡ self.now }
    {
        self.items.as_slice()
    }

    /// The depth of the deepest value, or 0 where there is none.
    #[cycle(depth)]
    pub fn deepest(&self) -> u32
        ensures value { result ≡ deepest (data_of self.now) }
        ensures bound { result < max_depth }
    {
        deepest_of(self.items.as_slice())
    }

    /// Whether both have the same values in the same order.
    #[cycle(same)]
    pub fn same(&self, other: &PlainList) -> bool
        ensures { IsTrue result ↔ (self.now ≡ other.now) }
    {
        same_items(self.items.as_slice(), other.items.as_slice())
    }

    /// The same list once more. `Err`: out of memory.
    #[cycle(copy)]
    pub fn try_copy(&self) -> Result<PlainList, AllocError>
        ensures { IfOk result (λ l. l ≡ self.now) }
    {
        let alloc = *self.items.allocator();
        let mut items = Vec::with_capacity(alloc, self.items.len())?;
        for item in &self.items {
            items.push(item.try_copy(alloc)?)?;
        }
        Ok(PlainList { items })
    }
}

/// The depth of the deepest value, or 0 where there is none.
#[cycle(depth)]
fn deepest_of(items: &[Plain]) -> u32
    ensures { result ≡ deepest (data_of (map datum_of items.now)) }
{
    let mut most = 0;
    for item in items {
        most = most.max(item.depth());
    }
    most
}

/// Whether both have the same values in the same order.
#[cycle(same)]
fn same_items(left: &[Plain], right: &[Plain]) -> bool
    ensures { IsTrue result ↔ (left.now ≡ right.now) }
{
    if left.len() != right.len() {
        return false;
    }
    for (a, b) in left.iter().zip(right) {
        if !a.same(b) {
            return false;
        }
    }
    true
}
