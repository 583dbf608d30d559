// The kit of the shipped rules: combiners and comparers.
ghost use Rattle.std.specs.Prelude.{◌≡◌, Bool, IfOk, OnErr};
ghost use Rattle.std.specs.Borrow.{Bor};
ghost use Rattle.values.specs.Shipped.{shipped};
ghost use Rattle.values.specs.Stored.{Combines, Compares};
ghost use Rattle.values.specs.declared.val.Val.{Val};

use crate::gate::Before;
use crate::kit_user::KitUser;
use crate::reading::lend_reading;
use shipped_rules::{Shipped, combine, compare, each_or_none, is_reflexive};
use std::alloc::{AllocError, Global};
use values::{CombineBox, Combiner, CompareBox, Comparer, Meanings, Sort, Val};

/// The comparer of a number with its rule, stored as one that says 'same' of every value and itself where that is known.
fn comparer(number: u32, rule: CompareBox) -> Comparer<Shipped>
    requires callable { (p q : Bor Val) → CompareBox.pre rule p q }
    requires meant { (p q : Bor Val) (r : Bool) → CompareBox.post rule p q r → r ≡ shipped.compare number p.now q.now }
    ensures { Compares shipped result }
{
    if is_reflexive(number) {
        Comparer::reflexive(number, rule)
    } else {
        Comparer::new(number, rule)
    }
}

/// What a user makes of the kit of the shipped rules, with this before them. `Err`: out of memory, and the user is as before.
pub(crate) fn lend_combining<U: KitUser>(
    alloc: Global,
    before: &Before,
    user: &mut U,
) -> Result<U::Answer, AllocError>
    ensures given { IfOk result (λ answer. U.gives user.old answer user.new) }
    ensures same { OnErr result (user.new ≡ user.old) }
{
    let combiners = each_or_none(
        alloc,
        Shipped::combiners(),
        |number: u32| -> Result<Combiner<Shipped>, AllocError>
            ensures { IfOk result (λ made. Combines shipped made) }
        {
            let before = before.same()?;
            let rule: CombineBox = Box::new(
                alloc,
                move |inputs: &[Val]| -> Result<Val, AllocError>
                    ensures { IfOk result (λ v. v ≡ shipped.combine number inputs.now) }
                {
                    before.pass(Sort::Combine, number)?;
                    combine(alloc, number, inputs)
                },
            )?;
            Ok(Combiner::<Shipped>::new(number, rule))
        },
    );
    let comparers = each_or_none(
        alloc,
        Shipped::comparers(),
        move |number: u32| -> Result<Comparer<Shipped>, AllocError>
            ensures { IfOk result (λ made. Compares shipped made) }
        {
            let rule: CompareBox = Box::new(
                alloc,
                move |old: &Val, new: &Val| -> bool
                    ensures { result ≡ shipped.compare number old.now new.now }
                { compare(number, old, new) },
            )?;
            Ok(comparer(number, rule))
        },
    );
    lend_reading(alloc, before, user, combiners, comparers)
}
