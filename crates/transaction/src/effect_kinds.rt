ghost use Rattle.std.specs.Prelude.{length, ltb, ◌≡◌};
ghost use Rattle.transaction.specs.Effects.{map_of};

use listed::Listed;

/// What is declared and can be named by effects.
#[derive(Drop)]
pub struct EffectKinds {
    /// The effect kinds: a kind's id is its place in the list, and it may have a map, which goes by a number.
    pub maps: Listed<Option<u32>>,
    /// How many compartments there are; their ids run from 0.
    pub compartments: u32,
}

impl EffectKinds {
    /// Whether there is a kind of this id.
    pub fn knows(&self, id: u32) -> bool
        ensures { result ≡ ltb id (length self.now.maps) }
    {
        (id as usize) < self.maps.as_slice().len()
    }

    /// The number of a kind's map, if it has one.
    pub fn map_of(&self, id: u32) -> Option<u32>
        ensures { result ≡ map_of self.now.maps id }
    {
        number_at(self.maps.as_slice(), id)
    }
}

/// The number at a place of a list, if there is one.
pub(crate) fn number_at(numbers: &[Option<u32>], at: u32) -> Option<u32>
    ensures { result ≡ map_of numbers.now at }
{
    numbers.get(at as usize).copied().flatten()
}
