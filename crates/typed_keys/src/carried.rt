// Types that values carry.
ghost use Rattle.std.specs.Prelude.{◌≡◌, true, IfOk};
ghost use Rattle.cm_plain.specs.Shape.{form_of};
ghost use Rattle.values.specs.Vals.{is_of};

use cm_plain::Shape;
use std::alloc::{AllocError, Global};
use values::Val;

/// A type whose values are carried by values of one shape.
pub trait Carried: Drop {
    ghost use Rattle.cm_plain.specs.Form.{Form};
    ghost use Rattle.values.specs.declared.val.Val.{Val};

    /// The shape.
    ghost form: { Form };

    /// The value that carries it.
    ghost carried: { Self → Val };

    /// What a value of the shape carries.
    ghost read: { Val → Self };

    /// The shape of the values. `Err`: out of memory.
    fn shape(alloc: Global) -> Result<Shape, AllocError>
        ensures { IfOk result (λ shape. form_of shape ≡ form) };

    /// The value that carries it, which is of the shape. `Err`: out of memory.
    fn to_val(&self, alloc: Global) -> Result<Val, AllocError>
        ensures value { IfOk result (λ v. v ≡ carried self.now) }
        ensures shape { IfOk result (λ v. is_of form v ≡ true) };

    /// What a value of the shape carries. `Err`: out of memory.
    fn from_val(alloc: Global, val: &Val) -> Result<Self, AllocError>
        requires { is_of form val.now ≡ true }
        ensures { IfOk result (λ x. x ≡ read val.now) };

    /// What is carried comes back.
    ghost round_trip: { (x : Self) → read (carried x) ≡ x };
}
