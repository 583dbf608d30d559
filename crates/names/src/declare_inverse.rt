// Pairs of effect kinds.
ghost use Rattle.std.specs.Prelude.{◌≡◌, ℕ, List, OnErr};
ghost use Rattle.script.specs.Reading.{Gives};
ghost use Rattle.values.specs.Growth.{IsGrowth};
ghost use Rattle.names.specs.Adding.{world};
ghost use Rattle.names.specs.Declaring.{inverse_in, one_of};

use crate::finding::{Effects, found};
use crate::names::Names;
use crate::refusing::{IdNames, settled};
use cm_plain::Str;
use registry::Registry;
use requests::InverseDeclaration;
use script::LineError;
use std::alloc::Global;
use values::Meanings;

/// The names of two effect kinds.
#[derive(Clone, Copy)]
struct TwoNames<'a> {
    first: u32,
    name: &'a Str,
    other: &'a Str,
}

impl<'a> IdNames for TwoNames<'a> {
    ghost names = { λ two. one_of two.first two.name.now two.other.now };

    fn name(&self, id: u32) -> &Str {
        if id == self.first {
            self.name
        } else {
            self.other
        }
    }
}

/// Makes two effect kinds each other's inverse.
pub(crate) fn declare_inverse<M: Meanings>(
    alloc: Global,
    registry: &mut Registry<M>,
    names: &mut Names,
    inverse: &InverseDeclaration,
) -> Result<(), LineError>
    ensures answer { Gives (λ x. world names.new registry.new) result (inverse_in (world names.old registry.old) inverse.now) }
    ensures names_same { OnErr result (names.new ≡ names.old) }
    ensures same { OnErr result (registry.new ≡ registry.old) }
    ensures grows { IsGrowth registry.old registry.new }
{
    let effect = found::<Effects>(names, &inverse.effect)?;
    let back = found::<Effects>(names, &inverse.back)?;
    let ids = TwoNames {
        first: effect,
        name: &inverse.effect,
        other: &inverse.back,
    };
    let count = names.len();
    let outcome = registry.pair(effect, back);
    settled(alloc, names, count, outcome, &ids)
}
