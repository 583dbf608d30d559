ghost use Rattle.std.specs.Prelude.{IfOk, List, Option, ℕ, ◌≡◌, ◌≤◌};
ghost use Rattle.line_tree.specs.Text.{max_len};
ghost use Rattle.change_desc.specs.declared.section.Section.{Section};
ghost use Rattle.change_desc.specs.Sections.{counted, new_size, old_size};
ghost use Rattle.transaction.specs.Numbers.{IsNumber};

use change_desc::Desc;
use std::alloc::AllocError;

/// The maps that effect kinds may have (Reference Manual, StateEffect.map), by their numbers.
pub trait EffectMaps<V> {
    /// How many maps there are: their numbers run from 1 to this.
    ghost map_count: { Self → ℕ };

    /// The value after changes, or none where it is dropped, by the map's number.
    ghost map_value: { Self → ℕ → V → List (Section ℕ) → Option V };

    /// What has to hold of the maps before they are asked, as that each of their stored closures answers its number's meaning.
    ghost can_map: { Self → Type 0 } = { λ maps. Unit {0} };

    /// What the map of this number makes of a value over changes of a document, where neither document has more than
    /// 16,777,216 characters. `None`: the effect is dropped. `Err`: out of memory.
    fn map(&self, number: u32, value: V, changes: &Desc) -> Result<Option<V>, AllocError>
        requires can_map { can_map self.now }
        requires known { IsNumber (map_count self.now) number }
        requires short { old_size changes.now ≤ max_len }
        requires new_short { new_size counted changes.now ≤ max_len }
        ensures { IfOk result (λ answer. answer ≡ map_value self.now number value changes.now) };
}
