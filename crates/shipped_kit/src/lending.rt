ghost use Rattle.std.specs.Prelude.{◌≡◌, IfOk, OnErr};

use crate::combining::lend_combining;
use crate::gate::{Before, Gate};
use crate::kit_user::KitUser;
use std::alloc::{AllocError, Global};
use std::rc::Rc;

/// What a user makes of the kit of the shipped rules, which is lent to it once. `Err`: out of memory, and the user is as before.
pub fn lend_kit<U: KitUser>(alloc: Global, user: &mut U) -> Result<U::Answer, AllocError>
    ensures given { IfOk result (λ answer. U.gives user.old answer user.new) }
    ensures same { OnErr result (user.new ≡ user.old) }
{
    lend_combining(alloc, &Before::Nothing, user)
}

/// The same, with a gate before the rules. The kit is whole all the same: a rule that the gate refuses is out of memory, and each
/// other answers its number's meaning.
pub fn lend_gated_kit<U: KitUser>(
    alloc: Global,
    gate: &Rc<Gate>,
    user: &mut U,
) -> Result<U::Answer, AllocError>
    ensures given { IfOk result (λ answer. U.gives user.old answer user.new) }
    ensures same { OnErr result (user.new ≡ user.old) }
{
    let before = Before::Gate(gate.clone()?);
    lend_combining(alloc, &before, user)
}
