ghost use Rattle.std.specs.Prelude.{◌≡◌, IfOk};
ghost use Rattle.values.specs.InRange.{IsInRange};

use crate::val::Val;
use std::alloc::{AllocError, Global};
use std::marker::Model;
use std::rc::Rc;

/// A value with several owners: states, and the `Deps` of rules. Contracts see it as the value, each number of which lies in the
/// range of its type.
#[derive(Drop)]
pub struct SharedVal {
    value: Rc<Val>,
}

impl Model for SharedVal {
    ghost use Rattle.std.specs.Coded.{codes};
    ghost use Rattle.cm_plain.specs.Datum.{coded_datum};
    ghost use Rattle.values.specs.InRange.{IsInRange};
    ghost use Rattle.values.specs.declared.val.Val.{Val};

    ghost Value = { Val };

    ghost coded = { Prim.hlevel (codes, coded_datum) };

    ghost view = { λ s. s.value.value };

    ghost invariant = { λ s. IsInRange s.value.value };
}

impl SharedVal {
    /// This value, to be shared. `Err`: out of memory.
    #[inline(always)]
    pub fn new(alloc: Global, value: Val) -> Result<SharedVal, AllocError>
        ensures { IfOk result (λ shared. shared ≡ value) }
    {
        value.known();
        match Rc::new(alloc, value) {
            Ok(value) => Ok(SharedVal { value }),
            Err(_) => Err(AllocError),
        }
    }

    /// The value. Takes no memory.
    pub fn value(&self) -> &Val
        ensures { result.now ≡ self.now }
    {
        &self.value
    }

    /// What may be relied on in the value: its numbers lie in the ranges of their types. Reads none of them.
    pub fn known(&self)
        ensures { IsInRange self.now }
    {
        let _ = &self.value;
    }

    /// The same value once more, without a copy of it. `Err`: no further owner can be counted.
    pub fn share(&self) -> Result<SharedVal, AllocError>
        ensures { IfOk result (λ shared. shared ≡ self.now) }
    {
        let value = self.value.clone()?;
        Ok(SharedVal { value })
    }
}
