ghost use Rattle.std.specs.Prelude.{◌≡◌, ◌∷◌, [], IfOk};

use crate::input_values::InputValues;
use std::alloc::{AllocError, Global};
use std::marker::Model;
use std::rc::Rc;

/// No input, one, as most facets with inputs have, or a list of them.
#[derive(Drop)]
pub(crate) enum Inputs {
    Empty,
    One(InputValues),
    Many(Rc<Vec<InputValues>>),
}

/// What the inputs of a facet give, in flat order, which states share. Contracts see the values of each input.
#[derive(Drop)]
pub struct FacetInputs {
    inputs: Inputs,
}

impl Model for FacetInputs {
    ghost use Rattle.std.specs.Prelude.{List};
    ghost use Rattle.std.specs.Coded.{codes};
    ghost use Rattle.cm_plain.specs.Datum.{coded_datum};
    ghost use Rattle.values.specs.declared.val.Val.{Val};
    ghost use Rattle.facet_slots.specs.GivenInputs.{given_inputs};

    ghost Value = { List (List Val) };

    ghost coded = { Prim.hlevel (codes, coded_datum) };

    ghost view = { λ i. given_inputs i.inputs };
}

impl FacetInputs {
    /// Those of a facet that has no inputs. Takes no memory.
    pub fn none() -> FacetInputs
        ensures { result ≡ [] }
    {
        FacetInputs {
            inputs: Inputs::Empty,
        }
    }

    /// That of a facet that has one. Takes no memory.
    pub fn one(values: InputValues) -> FacetInputs
        ensures { result ≡ values ∷ [] }
    {
        FacetInputs {
            inputs: Inputs::One(values),
        }
    }

    /// These, to be shared. `Err`: out of memory.
    pub fn new(alloc: Global, lists: Vec<InputValues>) -> Result<FacetInputs, AllocError>
        ensures { IfOk result (λ inputs. inputs ≡ lists.items) }
    {
        if lists.is_empty() {
            return Ok(FacetInputs::none());
        }
        match Rc::new(alloc, lists) {
            Ok(lists) => Ok(FacetInputs {
                inputs: Inputs::Many(lists),
            }),
            Err(_) => Err(AllocError),
        }
    }

    /// What each input gives. Takes no memory.
    pub fn as_slice(&self) -> &[InputValues]
        ensures { result.now ≡ self.now }
    {
        match &self.inputs {
            Inputs::Empty => &[],
            Inputs::One(values) => std::slice::from_ref(values),
            Inputs::Many(lists) => lists.as_slice(),
        }
    }

    /// The same once more, without a copy. `Err`: no further owner can be counted.
    pub fn share(&self) -> Result<FacetInputs, AllocError>
        ensures { IfOk result (λ inputs. inputs ≡ self.now) }
    {
        match &self.inputs {
            Inputs::Empty => Ok(FacetInputs::none()),
            Inputs::One(values) => Ok(FacetInputs::one(values.share()?)),
            Inputs::Many(lists) => {
                let lists = lists.clone()?;
                Ok(FacetInputs {
                    inputs: Inputs::Many(lists),
                })
            }
        }
    }
}
