// The kit of the shipped rules: computers and creators.
ghost use Rattle.std.specs.Prelude.{◌≡◌, All, IfOk, OnErr};
ghost use Rattle.values.specs.Shipped.{shipped};
ghost use Rattle.values.specs.Stored.{Combines, Compares, Computes, Creates};

use crate::gate::Before;
use crate::kit_user::KitUser;
use crate::listing::lend_listing;
use shipped_rules::{Shipped, compute, create, each_or_none};
use std::alloc::{AllocError, Global};
use values::{
    Combiner, Comparer, ComputeBox, Computer, CreateBox, Creator, Deps, Meanings, Sort, Val,
};

/// What a user makes of the kit, where combiners and comparers are made. `Err`: out of memory, and the user is as before.
pub(crate) fn lend_reading<U: KitUser>(
    alloc: Global,
    before: &Before,
    user: &mut U,
    combiners: Vec<Combiner<Shipped>>,
    comparers: Vec<Comparer<Shipped>>,
) -> Result<U::Answer, AllocError>
    requires combiners { All (Combines shipped) combiners.items }
    requires comparers { All (Compares shipped) comparers.items }
    ensures given { IfOk result (λ answer. U.gives user.old answer user.new) }
    ensures same { OnErr result (user.new ≡ user.old) }
{
    let computers = each_or_none(
        alloc,
        Shipped::computers(),
        |number: u32| -> Result<Computer<Shipped>, AllocError>
            ensures { IfOk result (λ made. Computes shipped made) }
        {
            let before = before.same()?;
            let rule: ComputeBox = Box::new(
                alloc,
                move |deps: &Deps| -> Result<Val, AllocError>
                    ensures { IfOk result (λ v. v ≡ shipped.compute number deps.now) }
                {
                    before.pass(Sort::Compute, number)?;
                    compute(alloc, number, deps)
                },
            )?;
            Ok(Computer::<Shipped>::new(number, rule))
        },
    );
    let creators = each_or_none(
        alloc,
        Shipped::creators(),
        |number: u32| -> Result<Creator<Shipped>, AllocError>
            ensures { IfOk result (λ made. Creates shipped made) }
        {
            let before = before.same()?;
            let rule: CreateBox = Box::new(
                alloc,
                move |deps: &Deps| -> Result<Val, AllocError>
                    ensures { IfOk result (λ v. v ≡ shipped.create number deps.now) }
                {
                    before.pass(Sort::Create, number)?;
                    create(alloc, number, deps)
                },
            )?;
            Ok(Creator::<Shipped>::new(number, rule))
        },
    );
    lend_listing(
        alloc, before, user, combiners, comparers, computers, creators,
    )
}
