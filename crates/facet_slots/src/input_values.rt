ghost use Rattle.std.specs.Prelude.{◌≡◌, ◌∷◌, [], IfOk};

use listed::Listed;
use std::alloc::{AllocError, Global};
use std::marker::Model;
use std::rc::Rc;
use values::Val;

/// One value, as most inputs give, or a list of them.
#[derive(Drop)]
pub(crate) enum Given {
    One(Val),
    Many(Listed<Val>),
}

/// What an input node gives its facet, which states share. Contracts see the values.
#[derive(Drop)]
pub struct InputValues {
    values: Rc<Given>,
}

impl Model for InputValues {
    ghost use Rattle.std.specs.Prelude.{List};
    ghost use Rattle.std.specs.Coded.{codes};
    ghost use Rattle.cm_plain.specs.Datum.{coded_datum};
    ghost use Rattle.values.specs.declared.val.Val.{Val};
    ghost use Rattle.facet_slots.specs.Given.{given_values};

    ghost Value = { List Val };

    ghost coded = { Prim.hlevel (codes, coded_datum) };

    ghost view = { λ i. given_values i.values.value };
}

/// Shares what an input gives. `Err`: out of memory.
fn shared(alloc: Global, values: Given) -> Result<InputValues, AllocError>
    ensures { IfOk result (λ shared. shared ≡ given_values values) }
{
    match Rc::new(alloc, values) {
        Ok(values) => Ok(InputValues { values }),
        Err(_) => Err(AllocError),
    }
}

ghost use Rattle.facet_slots.specs.Given.{given_values};

impl InputValues {
    /// These values, to be shared. `Err`: out of memory.
    pub fn new(alloc: Global, values: Listed<Val>) -> Result<InputValues, AllocError>
        ensures { IfOk result (λ shared. shared ≡ values) }
    {
        shared(alloc, Given::Many(values))
    }

    /// One value, to be shared. `Err`: out of memory.
    pub fn one(alloc: Global, value: Val) -> Result<InputValues, AllocError>
        ensures { IfOk result (λ shared. shared ≡ value ∷ []) }
    {
        shared(alloc, Given::One(value))
    }

    /// The values, in order. Takes no memory.
    pub fn as_slice(&self) -> &[Val]
        ensures { result.now ≡ self.now }
    {
        match &*self.values {
            Given::One(value) => std::slice::from_ref(value),
            Given::Many(values) => values.as_slice(),
        }
    }

    /// The same values once more, without a copy of them. `Err`: no further owner can be counted.
    pub fn share(&self) -> Result<InputValues, AllocError>
        ensures { IfOk result (λ shared. shared ≡ self.now) }
    {
        let values = self.values.clone()?;
        Ok(InputValues { values })
    }
}
