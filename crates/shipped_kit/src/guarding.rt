// The kit of the shipped rules: effect maps and change guards.
ghost use Rattle.std.specs.Prelude.{◌≡◌, All, IfOk, OnErr};
ghost use Rattle.values.specs.Shipped.{shipped};
ghost use Rattle.values.specs.Stored.{Combines, Compares, Computes, ComputesLists, Creates, Guards, MapsEffects, Updates};

use crate::filtering::lend_filtering;
use crate::kit_user::KitUser;
use change_desc::Desc;
use shipped_rules::{Shipped, each_or_none, guard, map_effect};
use std::alloc::{AllocError, Global};
use values::{
    ChangeGuard, Combiner, Comparer, Computer, ComputerN, Creator, EffectMap, EffectMapBox,
    GuardBox, Guarding, Meanings, TrView, Updater, Val,
};

/// What a user makes of the kit, where all rules but effect maps and those that see a transaction are made. `Err`: out of memory, and the user is as before.
pub(crate) fn lend_guarding<U: KitUser>(
    alloc: Global,
    user: &mut U,
    combiners: Vec<Combiner<Shipped>>,
    comparers: Vec<Comparer<Shipped>>,
    computers: Vec<Computer<Shipped>>,
    creators: Vec<Creator<Shipped>>,
    list_computers: Vec<ComputerN<Shipped>>,
    updaters: Vec<Updater<Shipped>>,
) -> Result<U::Answer, AllocError>
    requires combiners { All (Combines shipped) combiners.items }
    requires comparers { All (Compares shipped) comparers.items }
    requires computers { All (Computes shipped) computers.items }
    requires creators { All (Creates shipped) creators.items }
    requires list_computers { All (ComputesLists shipped) list_computers.items }
    requires updaters { All (Updates shipped) updaters.items }
    ensures given { IfOk result (λ answer. U.gives user.old answer user.new) }
    ensures same { OnErr result (user.new ≡ user.old) }
{
    let effect_maps = each_or_none(
        alloc,
        Shipped::effect_maps(),
        move |number: u32| -> Result<EffectMap<Shipped>, AllocError>
            ensures { IfOk result (λ made. MapsEffects shipped made) }
        {
            let rule: EffectMapBox = Box::new(
                alloc,
                move |value: Val, changes: &Desc| -> Result<Option<Val>, AllocError>
                    ensures { IfOk result (λ mapped. mapped ≡ shipped.map_effect number value changes.now) }
                { map_effect(alloc, number, value, changes) },
            )?;
            Ok(EffectMap::<Shipped>::new(number, rule))
        },
    );
    let change_guards = each_or_none(
        alloc,
        Shipped::change_guards(),
        move |number: u32| -> Result<ChangeGuard<Shipped>, AllocError>
            ensures { IfOk result (λ made. Guards shipped made) }
        {
            let rule: GuardBox = Box::new(
                alloc,
                move |shown: &TrView, given: &Val| -> Result<Guarding, AllocError>
                    ensures { IfOk result (λ a. a ≡ shipped.guard number shown.now given.now) }
                { guard(alloc, number, shown, given) },
            )?;
            Ok(ChangeGuard::<Shipped>::new(number, rule))
        },
    );
    lend_filtering(
        alloc,
        user,
        combiners,
        comparers,
        computers,
        creators,
        list_computers,
        updaters,
        effect_maps,
        change_guards,
    )
}
