// The kit of the shipped rules: list computers and updaters.
ghost use Rattle.std.specs.Prelude.{◌≡◌, All, IfOk, OnErr, unwrap_or};
ghost use Rattle.values.specs.Shipped.{shipped};
ghost use Rattle.values.specs.Stored.{Combines, Compares, Computes, ComputesLists, Creates, Updates};

use crate::gate::Before;
use crate::guarding::lend_guarding;
use crate::kit_user::KitUser;
use listed::Listed;
use shipped_rules::{Shipped, compute_list, each_or_none, update};
use std::alloc::{AllocError, Global};
use values::{
    Combiner, Comparer, ComputeListBox, Computer, ComputerN, Creator, Deps, Meanings, Sort,
    UpdateBox, UpdateView, Updater, Val,
};

/// What a user makes of the kit, where computers and creators are made too. `Err`: out of memory, and the user is as before.
pub(crate) fn lend_listing<U: KitUser>(
    alloc: Global,
    before: &Before,
    user: &mut U,
    combiners: Vec<Combiner<Shipped>>,
    comparers: Vec<Comparer<Shipped>>,
    computers: Vec<Computer<Shipped>>,
    creators: Vec<Creator<Shipped>>,
) -> Result<U::Answer, AllocError>
    requires combiners { All (Combines shipped) combiners.items }
    requires comparers { All (Compares shipped) comparers.items }
    requires computers { All (Computes shipped) computers.items }
    requires creators { All (Creates shipped) creators.items }
    ensures given { IfOk result (λ answer. U.gives user.old answer user.new) }
    ensures same { OnErr result (user.new ≡ user.old) }
{
    let list_computers = each_or_none(
        alloc,
        Shipped::list_computers(),
        |number: u32| -> Result<ComputerN<Shipped>, AllocError>
            ensures { IfOk result (λ made. ComputesLists shipped made) }
        {
            let before = before.same()?;
            let rule: ComputeListBox = Box::new(
                alloc,
                move |deps: &Deps| -> Result<Listed<Val>, AllocError>
                    ensures { IfOk result (λ vs. vs ≡ shipped.compute_list number deps.now) }
                {
                    before.pass(Sort::ComputeN, number)?;
                    compute_list(alloc, number, deps)
                },
            )?;
            Ok(ComputerN::<Shipped>::new(number, rule))
        },
    );
    let updaters = each_or_none(
        alloc,
        Shipped::updaters(),
        |number: u32| -> Result<Updater<Shipped>, AllocError>
            ensures { IfOk result (λ made. Updates shipped made) }
        {
            let before = before.same()?;
            let rule: UpdateBox = Box::new(
                alloc,
                move |old: &Val, view: &UpdateView| -> Result<Option<Val>, AllocError>
                    ensures { IfOk result (λ answer. unwrap_or answer old.now ≡ shipped.update number old.now view.now.transaction view.now.deps) }
                {
                    before.pass(Sort::Update, number)?;
                    update(alloc, number, old, view)
                },
            )?;
            Ok(Updater::<Shipped>::new(number, rule))
        },
    );
    lend_guarding(
        alloc,
        user,
        combiners,
        comparers,
        computers,
        creators,
        list_computers,
        updaters,
    )
}
