// A kit's maps of effects, as transactions ask them.
use crate::kit::Kit;
use crate::meanings::Meanings;
use crate::val::Val;
use change_desc::Desc;
use std::alloc::AllocError;
use transaction::EffectMaps;

impl<M: Meanings> EffectMaps<Val> for Kit<M> {
    ghost use Rattle.values.specs.Whole.{IsWhole};

    ghost map_count = { λ kit. M.rules.effect_maps };

    ghost map_value = { λ kit. M.rules.map_effect };

    ghost can_map = { λ kit. IsWhole M.rules kit };

    fn map(&self, number: u32, value: Val, changes: &Desc) -> Result<Option<Val>, AllocError> {
        self.effect_map(number).call(value, changes)
    }
}
