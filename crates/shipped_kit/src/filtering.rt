// The kit of the shipped rules: filters and extenders.
ghost use Rattle.std.specs.Prelude.{◌≡◌, All, IfOk, OnErr};
ghost use Rattle.values.specs.Shipped.{shipped};
ghost use Rattle.values.specs.Stored.{Combines, Compares, Computes, ComputesLists, Creates, Extends, Filters, Guards, MapsEffects, Updates};
ghost use Rattle.values.specs.Whole.{IsWhole};

use crate::kit_user::KitUser;
use shipped_rules::{Shipped, each_or_none, extend, filter};
use std::alloc::{AllocError, Global};
use values::{
    ChangeGuard, Combiner, Comparer, Computer, ComputerN, Creator, EffectMap, ExtendBox, Extender,
    Extension, FilterBox, Filtering, Gap, Kit, Meanings, RuleLists, TrFilter, TrView, Updater, Val,
};

/// What a user makes of a kit. `Err`: there is none.
fn lent<U: KitUser>(
    alloc: Global,
    kit: Result<Kit<Shipped>, Gap>,
    user: &mut U,
) -> Result<U::Answer, AllocError>
    requires { IfOk kit (λ kit. IsWhole shipped kit) }
    ensures given { IfOk result (λ answer. U.gives user.old answer user.new) }
    ensures same { OnErr result (user.new ≡ user.old) }
{
    match kit {
        Ok(kit) => Ok(user.use_kit(alloc, &kit)),
        Err(_) => Err(AllocError),
    }
}

/// What a user makes of the kit, where all rules but transaction filters and extenders are made. `Err`: out of memory, and the user is as before.
pub(crate) fn lend_filtering<U: KitUser>(
    alloc: Global,
    user: &mut U,
    combiners: Vec<Combiner<Shipped>>,
    comparers: Vec<Comparer<Shipped>>,
    computers: Vec<Computer<Shipped>>,
    creators: Vec<Creator<Shipped>>,
    list_computers: Vec<ComputerN<Shipped>>,
    updaters: Vec<Updater<Shipped>>,
    effect_maps: Vec<EffectMap<Shipped>>,
    change_guards: Vec<ChangeGuard<Shipped>>,
) -> Result<U::Answer, AllocError>
    requires combiners { All (Combines shipped) combiners.items }
    requires comparers { All (Compares shipped) comparers.items }
    requires computers { All (Computes shipped) computers.items }
    requires creators { All (Creates shipped) creators.items }
    requires list_computers { All (ComputesLists shipped) list_computers.items }
    requires updaters { All (Updates shipped) updaters.items }
    requires effect_maps { All (MapsEffects shipped) effect_maps.items }
    requires change_guards { All (Guards shipped) change_guards.items }
    ensures given { IfOk result (λ answer. U.gives user.old answer user.new) }
    ensures same { OnErr result (user.new ≡ user.old) }
{
    let filters = each_or_none(
        alloc,
        Shipped::transaction_filters(),
        move |number: u32| -> Result<TrFilter<Shipped>, AllocError>
            ensures { IfOk result (λ made. Filters shipped made) }
        {
            let rule: FilterBox = Box::new(
                alloc,
                move |shown: &TrView, given: &Val| -> Result<Filtering, AllocError>
                    ensures { IfOk result (λ a. a ≡ shipped.filter number shown.now given.now) }
                { filter(alloc, number, shown, given) },
            )?;
            Ok(TrFilter::<Shipped>::new(number, rule))
        },
    );
    let extenders = each_or_none(
        alloc,
        Shipped::extenders(),
        move |number: u32| -> Result<Extender<Shipped>, AllocError>
            ensures { IfOk result (λ made. Extends shipped made) }
        {
            let rule: ExtendBox = Box::new(
                alloc,
                move |shown: &TrView, given: &Val| -> Result<Extension, AllocError>
                    ensures { IfOk result (λ a. a ≡ shipped.extend number shown.now given.now) }
                { extend(alloc, number, shown, given) },
            )?;
            Ok(Extender::<Shipped>::new(number, rule))
        },
    );
    let kit = Kit::new(RuleLists {
        combiners,
        comparers,
        computers,
        list_computers,
        creators,
        updaters,
        effect_maps,
        change_guards,
        filters,
        extenders,
    });
    lent(alloc, kit, user)
}
