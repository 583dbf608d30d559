// Types that plain values carry.
ghost use Rattle.std.specs.Prelude.{◌≡◌, true, IfOk, refl};
ghost use Rattle.cm_plain.specs.Form.{any, booleans, texts};
ghost use Rattle.cm_plain.specs.Shape.{form_of};
ghost use Rattle.values.specs.Vals.{is_of};
ghost use Rattle.typed_keys.specs.Read.{any_number, number_in, of_number, of_text, of_truth, plain_in, text_in, truth_in};
ghost use Rattle.values.specs.declared.val.Val.TheVariants as val;

use crate::carried::Carried;
use cm_plain::{Plain, Shape, Str};
use std::alloc::{AllocError, Global};
use values::Val;

impl Carried for bool {
    ghost form = { booleans };

    ghost carried = { of_truth };

    ghost read = { truth_in };

    fn shape(_alloc: Global) -> Result<Shape, AllocError> {
        Ok(Shape::Bool)
    }

    fn to_val(&self, _alloc: Global) -> Result<Val, AllocError> {
        Ok(Val::Plain(Plain::Bool(*self)))
    }

    fn from_val(_alloc: Global, value: &Val) -> Result<bool, AllocError>
        requires { is_of booleans value.now ≡ true }
        ensures { IfOk result (λ x. x ≡ truth_in value.now) }
    {
        match value {
            Val::Plain(Plain::Bool(truth)) => Ok(*truth),
            _ => unreachable!(),
        }
    }

    ghost round_trip = { λ x. refl };
}

impl Carried for i64 {
    ghost form = { any_number };

    ghost carried = { of_number };

    ghost read = { number_in };

    fn shape(_alloc: Global) -> Result<Shape, AllocError> {
        Ok(Shape::Int(i64::MIN, i64::MAX))
    }

    fn to_val(&self, _alloc: Global) -> Result<Val, AllocError> {
        Ok(Val::Plain(Plain::Int(*self)))
    }

    fn from_val(_alloc: Global, value: &Val) -> Result<i64, AllocError>
        requires { is_of any_number value.now ≡ true }
        ensures { IfOk result (λ x. x ≡ number_in value.now) }
    {
        match value {
            Val::Plain(Plain::Int(number)) => Ok(*number),
            _ => unreachable!(),
        }
    }

    ghost round_trip = { λ x. refl };
}

impl Carried for Str {
    ghost form = { texts };

    ghost carried = { of_text };

    ghost read = { text_in };

    fn shape(_alloc: Global) -> Result<Shape, AllocError> {
        Ok(Shape::Text)
    }

    fn to_val(&self, _alloc: Global) -> Result<Val, AllocError> {
        let text = self.try_copy()?;
        Ok(Val::Plain(Plain::Text(text)))
    }

    fn from_val(_alloc: Global, value: &Val) -> Result<Str, AllocError>
        requires { is_of texts value.now ≡ true }
        ensures { IfOk result (λ x. x ≡ text_in value.now) }
    {
        match value {
            Val::Plain(Plain::Text(text)) => text.try_copy(),
            _ => unreachable!(),
        }
    }

    ghost round_trip = { λ x. refl };
}

impl Carried for Plain {
    ghost form = { any };

    ghost carried = { val.Plain };

    ghost read = { plain_in };

    fn shape(_alloc: Global) -> Result<Shape, AllocError> {
        Ok(Shape::Any)
    }

    fn to_val(&self, alloc: Global) -> Result<Val, AllocError> {
        let plain = self.try_copy(alloc)?;
        Ok(Val::Plain(plain))
    }

    fn from_val(alloc: Global, value: &Val) -> Result<Plain, AllocError>
        requires { is_of any value.now ≡ true }
        ensures { IfOk result (λ x. x ≡ plain_in value.now) }
    {
        match value {
            Val::Plain(plain) => plain.try_copy(alloc),
            _ => unreachable!(),
        }
    }

    ghost round_trip = { λ x. refl };
}
