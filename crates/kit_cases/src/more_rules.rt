// The rules of a stranger, of all sorts, each written out with its clause: a function that handed out rules of one sort would hand
// out boxed closures. So each function makes two sorts, and passes on what is made.
ghost use Rattle.std.specs.Prelude.{◌≡◌, All, Bool, IfOk, unwrap_or};
ghost use Rattle.std.specs.Borrow.{Bor};
ghost use Rattle.values.specs.Stored.{Combines, Compares, Computes, ComputesLists, Creates, Extends, Filters, Guards, MapsEffects, Updates};
ghost use Rattle.values.specs.declared.val.Val.{Val};
ghost use Rattle.kit_cases.specs.More.{more};

use crate::more::{More, combine_more};
use crate::more_kit::{Case, is_so};
use change_desc::Desc;
use listed::Listed;
use shipped_rules::{
    compare, compute, compute_list, create, each_or_none, extend, filter, guard, is_reflexive,
    map_effect, update,
};
use std::alloc::{AllocError, Global};
use std::test::Fail;
use values::{
    ChangeGuard, CombineBox, Combiner, CompareBox, Comparer, ComputeBox, ComputeListBox, Computer,
    ComputerN, CreateBox, Creator, Deps, EffectMap, EffectMapBox, ExtendBox, Extender, Extension,
    FilterBox, Filtering, GuardBox, Guarding, Kit, Meanings, RuleLists, TrFilter, TrView,
    UpdateBox, UpdateView, Updater, Val,
};

/// Whether a case holds, where all rules but transaction filters and extenders are made.
fn holds_filtering(
    alloc: Global,
    case: Case,
    combiners: Vec<Combiner<More>>,
    comparers: Vec<Comparer<More>>,
    computers: Vec<Computer<More>>,
    creators: Vec<Creator<More>>,
    list_computers: Vec<ComputerN<More>>,
    updaters: Vec<Updater<More>>,
    effect_maps: Vec<EffectMap<More>>,
    change_guards: Vec<ChangeGuard<More>>,
) -> Result<bool, Fail>
    requires combiners { All (Combines more) combiners.items }
    requires comparers { All (Compares more) comparers.items }
    requires computers { All (Computes more) computers.items }
    requires creators { All (Creates more) creators.items }
    requires list_computers { All (ComputesLists more) list_computers.items }
    requires updaters { All (Updates more) updaters.items }
    requires effect_maps { All (MapsEffects more) effect_maps.items }
    requires change_guards { All (Guards more) change_guards.items }
{
    let filters = each_or_none(
        alloc,
        More::transaction_filters(),
        move |number: u32| -> Result<TrFilter<More>, AllocError>
            ensures { IfOk result (λ made. Filters more made) }
        {
            let rule: FilterBox = Box::new(
                alloc,
                move |shown: &TrView, given: &Val| -> Result<Filtering, AllocError>
                    ensures { IfOk result (λ a. a ≡ more.filter number shown.now given.now) }
                { filter(alloc, number, shown, given) },
            )?;
            Ok(TrFilter::<More>::new(number, rule))
        },
    );
    let extenders = each_or_none(
        alloc,
        More::extenders(),
        move |number: u32| -> Result<Extender<More>, AllocError>
            ensures { IfOk result (λ made. Extends more made) }
        {
            let rule: ExtendBox = Box::new(
                alloc,
                move |shown: &TrView, given: &Val| -> Result<Extension, AllocError>
                    ensures { IfOk result (λ a. a ≡ more.extend number shown.now given.now) }
                { extend(alloc, number, shown, given) },
            )?;
            Ok(Extender::<More>::new(number, rule))
        },
    );
    let kit = Kit::new(RuleLists {
        combiners,
        comparers,
        computers,
        list_computers,
        creators,
        updaters,
        effect_maps,
        change_guards,
        filters,
        extenders,
    });
    is_so(kit, case)
}

/// Whether a case holds, where all rules but effect maps and those that see a transaction are made.
fn holds_guarding(
    alloc: Global,
    case: Case,
    combiners: Vec<Combiner<More>>,
    comparers: Vec<Comparer<More>>,
    computers: Vec<Computer<More>>,
    creators: Vec<Creator<More>>,
    list_computers: Vec<ComputerN<More>>,
    updaters: Vec<Updater<More>>,
) -> Result<bool, Fail>
    requires combiners { All (Combines more) combiners.items }
    requires comparers { All (Compares more) comparers.items }
    requires computers { All (Computes more) computers.items }
    requires creators { All (Creates more) creators.items }
    requires list_computers { All (ComputesLists more) list_computers.items }
    requires updaters { All (Updates more) updaters.items }
{
    let effect_maps = each_or_none(
        alloc,
        More::effect_maps(),
        move |number: u32| -> Result<EffectMap<More>, AllocError>
            ensures { IfOk result (λ made. MapsEffects more made) }
        {
            let rule: EffectMapBox = Box::new(
                alloc,
                move |value: Val, changes: &Desc| -> Result<Option<Val>, AllocError>
                    ensures { IfOk result (λ mapped. mapped ≡ more.map_effect number value changes.now) }
                { map_effect(alloc, number, value, changes) },
            )?;
            Ok(EffectMap::<More>::new(number, rule))
        },
    );
    let change_guards = each_or_none(
        alloc,
        More::change_guards(),
        move |number: u32| -> Result<ChangeGuard<More>, AllocError>
            ensures { IfOk result (λ made. Guards more made) }
        {
            let rule: GuardBox = Box::new(
                alloc,
                move |shown: &TrView, given: &Val| -> Result<Guarding, AllocError>
                    ensures { IfOk result (λ a. a ≡ more.guard number shown.now given.now) }
                { guard(alloc, number, shown, given) },
            )?;
            Ok(ChangeGuard::<More>::new(number, rule))
        },
    );
    holds_filtering(
        alloc,
        case,
        combiners,
        comparers,
        computers,
        creators,
        list_computers,
        updaters,
        effect_maps,
        change_guards,
    )
}

/// Whether a case holds, where computers and creators are made too.
fn holds_listing(
    alloc: Global,
    case: Case,
    combiners: Vec<Combiner<More>>,
    comparers: Vec<Comparer<More>>,
    computers: Vec<Computer<More>>,
    creators: Vec<Creator<More>>,
) -> Result<bool, Fail>
    requires combiners { All (Combines more) combiners.items }
    requires comparers { All (Compares more) comparers.items }
    requires computers { All (Computes more) computers.items }
    requires creators { All (Creates more) creators.items }
{
    let list_computers = each_or_none(
        alloc,
        More::list_computers(),
        move |number: u32| -> Result<ComputerN<More>, AllocError>
            ensures { IfOk result (λ made. ComputesLists more made) }
        {
            let rule: ComputeListBox = Box::new(
                alloc,
                move |deps: &Deps| -> Result<Listed<Val>, AllocError>
                    ensures { IfOk result (λ vs. vs ≡ more.compute_list number deps.now) }
                { compute_list(alloc, number, deps) },
            )?;
            Ok(ComputerN::<More>::new(number, rule))
        },
    );
    let updaters = each_or_none(
        alloc,
        More::updaters(),
        move |number: u32| -> Result<Updater<More>, AllocError>
            ensures { IfOk result (λ made. Updates more made) }
        {
            let rule: UpdateBox = Box::new(
                alloc,
                move |old: &Val, view: &UpdateView| -> Result<Option<Val>, AllocError>
                    ensures { IfOk result (λ answer. unwrap_or answer old.now ≡ more.update number old.now view.now.transaction view.now.deps) }
                { update(alloc, number, old, view) },
            )?;
            Ok(Updater::<More>::new(number, rule))
        },
    );
    holds_guarding(
        alloc,
        case,
        combiners,
        comparers,
        computers,
        creators,
        list_computers,
        updaters,
    )
}

/// Whether a case holds, where combiners and comparers are made.
fn holds_reading(
    alloc: Global,
    case: Case,
    combiners: Vec<Combiner<More>>,
    comparers: Vec<Comparer<More>>,
) -> Result<bool, Fail>
    requires combiners { All (Combines more) combiners.items }
    requires comparers { All (Compares more) comparers.items }
{
    let computers = each_or_none(
        alloc,
        More::computers(),
        move |number: u32| -> Result<Computer<More>, AllocError>
            ensures { IfOk result (λ made. Computes more made) }
        {
            let rule: ComputeBox = Box::new(
                alloc,
                move |deps: &Deps| -> Result<Val, AllocError>
                    ensures { IfOk result (λ v. v ≡ more.compute number deps.now) }
                { compute(alloc, number, deps) },
            )?;
            Ok(Computer::<More>::new(number, rule))
        },
    );
    let creators = each_or_none(
        alloc,
        More::creators(),
        move |number: u32| -> Result<Creator<More>, AllocError>
            ensures { IfOk result (λ made. Creates more made) }
        {
            let rule: CreateBox = Box::new(
                alloc,
                move |deps: &Deps| -> Result<Val, AllocError>
                    ensures { IfOk result (λ v. v ≡ more.create number deps.now) }
                { create(alloc, number, deps) },
            )?;
            Ok(Creator::<More>::new(number, rule))
        },
    );
    holds_listing(alloc, case, combiners, comparers, computers, creators)
}

/// The comparer of a number with its rule, stored as one that says 'same' of every value and itself where that is known.
fn comparer(number: u32, rule: CompareBox) -> Comparer<More>
    requires callable { (p q : Bor Val) → CompareBox.pre rule p q }
    requires meant { (p q : Bor Val) (r : Bool) → CompareBox.post rule p q r → r ≡ more.compare number p.now q.now }
    ensures { Compares more result }
{
    if is_reflexive(number) {
        Comparer::reflexive(number, rule)
    } else {
        Comparer::new(number, rule)
    }
}

/// Whether a case holds of the kit of these rules.
pub(crate) fn holds(alloc: Global, case: Case) -> Result<bool, Fail> {
    let combiners = each_or_none(
        alloc,
        More::combiners(),
        move |number: u32| -> Result<Combiner<More>, AllocError>
            ensures { IfOk result (λ made. Combines more made) }
        {
            let rule: CombineBox = Box::new(
                alloc,
                move |inputs: &[Val]| -> Result<Val, AllocError>
                    ensures { IfOk result (λ v. v ≡ more.combine number inputs.now) }
                { combine_more(alloc, number, inputs) },
            )?;
            Ok(Combiner::<More>::new(number, rule))
        },
    );
    let comparers = each_or_none(
        alloc,
        More::comparers(),
        move |number: u32| -> Result<Comparer<More>, AllocError>
            ensures { IfOk result (λ made. Compares more made) }
        {
            let rule: CompareBox = Box::new(
                alloc,
                move |old: &Val, new: &Val| -> bool
                    ensures { result ≡ more.compare number old.now new.now }
                { compare(number, old, new) },
            )?;
            Ok(comparer(number, rule))
        },
    );
    holds_reading(alloc, case, combiners, comparers)
}
