ghost use Rattle.std.specs.Prelude.{◌≡◌, IsTrue, true};
ghost use Rattle.values.specs.Comparing.{compare, equal_scalars, is_scalar};
ghost use Rattle.values.specs.declared.val.Val.{Val};

use cm_plain::Plain;
use values::Val;

/// What the comparer of a number says of an earlier and a later value. Takes no memory.
pub fn compare(number: u32, old: &Val, new: &Val) -> bool
    ensures { result ≡ compare number old.now new.now }
{
    match number {
        1 => old.same(new),
        2 => false,
        3 => is_scalar(old) && old.same(new),
        _ => false,
    }
}

/// Whether the comparer of a number is known to say 'same' of every value and itself.
pub fn is_reflexive(number: u32) -> bool
    ensures { IsTrue result → (v : Val) → compare number v v ≡ true }
{
    number == 1
}

/// Whether it is plain data and no list.
fn is_scalar(value: &Val) -> bool
    ensures { result ≡ is_scalar value.now }
{
    match value {
        Val::Plain(Plain::List(_)) => false,
        Val::Plain(_) => true,
        _ => false,
    }
}
