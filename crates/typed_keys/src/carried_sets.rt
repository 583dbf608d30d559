// Types that values of the other kinds carry.
ghost use Rattle.std.specs.Prelude.{◌≡◌, true, IfOk, refl};
ghost use Rattle.cm_plain.specs.Form.{ranges, layers, history};
ghost use Rattle.cm_plain.specs.Shape.{form_of};
ghost use Rattle.values.specs.Vals.{is_of};
ghost use Rattle.typed_keys.specs.Read.{history_in, layers_in, ranges_in};
ghost use Rattle.values.specs.declared.val.Val.TheVariants as val;

use crate::carried::Carried;
use cm_plain::Shape;
use decoration::{DecoSet, Layers};
use history::History;
use std::alloc::{AllocError, Global};
use values::Val;

impl Carried for DecoSet {
    ghost form = { ranges };

    ghost carried = { val.Ranges };

    ghost read = { ranges_in };

    fn shape(_alloc: Global) -> Result<Shape, AllocError> {
        Ok(Shape::Ranges)
    }

    fn to_val(&self, _alloc: Global) -> Result<Val, AllocError> {
        let set = self.try_copy()?;
        Ok(Val::Ranges(set))
    }

    fn from_val(_alloc: Global, value: &Val) -> Result<DecoSet, AllocError>
        requires { is_of ranges value.now ≡ true }
        ensures { IfOk result (λ x. x ≡ ranges_in value.now) }
    {
        match value {
            Val::Ranges(set) => set.try_copy(),
            _ => unreachable!(),
        }
    }

    ghost round_trip = { λ x. refl };
}

impl Carried for Layers {
    ghost form = { layers };

    ghost carried = { val.Layers };

    ghost read = { layers_in };

    fn shape(_alloc: Global) -> Result<Shape, AllocError> {
        Ok(Shape::Layers)
    }

    fn to_val(&self, _alloc: Global) -> Result<Val, AllocError> {
        let all = self.try_copy()?;
        Ok(Val::Layers(all))
    }

    fn from_val(_alloc: Global, value: &Val) -> Result<Layers, AllocError>
        requires { is_of layers value.now ≡ true }
        ensures { IfOk result (λ x. x ≡ layers_in value.now) }
    {
        match value {
            Val::Layers(all) => all.try_copy(),
            _ => unreachable!(),
        }
    }

    ghost round_trip = { λ x. refl };
}

impl Carried for History {
    ghost form = { history };

    ghost carried = { val.History };

    ghost read = { history_in };

    fn shape(_alloc: Global) -> Result<Shape, AllocError> {
        Ok(Shape::History)
    }

    fn to_val(&self, _alloc: Global) -> Result<Val, AllocError> {
        let copy = self.try_copy()?;
        Ok(Val::History(copy))
    }

    fn from_val(_alloc: Global, value: &Val) -> Result<History, AllocError>
        requires { is_of history value.now ≡ true }
        ensures { IfOk result (λ x. x ≡ history_in value.now) }
    {
        match value {
            Val::History(found) => found.try_copy(),
            _ => unreachable!(),
        }
    }

    ghost round_trip = { λ x. refl };
}
