// The kit of the shipped rules: a rule of each sort is called.
ghost use Rattle.std.specs.Prelude.{◌≡◌, ◌<◌, ⊤};
ghost use Rattle.values.specs.Shipped.{shipped};
ghost use Rattle.values.specs.Whole.{IsWhole};

use crate::views::view;
use change_desc::Desc;
use cm_plain::Plain;
use shipped_kit::{KitUser, lend_kit};
use shipped_rules::Shipped;
use std::alloc::Global;
use std::marker::Brand;
use std::sync::ledger::{Blank, Ledger};
use std::test::*;
use steps::Steps;
use values::{Deps, Filtering, Guarding, Kit, TrView, UpdateView, Val};

fn int(number: i64) -> Val
    ensures { result ≡ Val.Plain (Plain.Int number) }
{
    Val::Plain(Plain::Int(number))
}

pub(crate) fn is_int(value: &Val, want: i64) -> bool {
    match value {
        Val::Plain(Plain::Int(number)) => *number == want,
        _ => false,
    }
}

/// Whether the rules that compare and combine answer: the greatest of no numbers is 0, and the same as 0; the first comparer is
/// known to say 'same' of every value and itself, and the second isn't.
fn combines<L: Ledger>(kit: &Kit<Shipped>, calls: &mut Steps<L>) -> Result<bool, Fail>
    requires { IsWhole shipped kit.now }
{
    let greatest = kit.combiner(4).call(&[], calls)?;
    Ok(
        kit.comparer(1).call(&greatest, &int(0))
            && kit.comparer(1).is_reflexive()
            && !kit.comparer(2).is_reflexive(),
    )
}

/// Whether the rules that read answer where nothing is read.
fn reads<L: Ledger>(kit: &Kit<Shipped>, deps: &Deps, calls: &mut Steps<L>) -> Result<bool, Fail>
    requires { IsWhole shipped kit.now }
{
    let length = kit.computer(1).call(deps, calls)?;
    let lines = kit.computer_n(1).call(deps, calls)?;
    let first = kit.creator(2).call(deps, calls)?;
    Ok(is_int(&length, 0) && lines.as_slice().is_empty() && is_int(&first, 0))
}

/// Whether the rules that see a transaction answer: no change stays, the transaction stays, nothing is added.
fn filters(kit: &Kit<Shipped>, transaction: &TrView) -> Result<bool, Fail>
    requires { IsWhole shipped kit.now }
{
    let data = int(0);
    data.known();
    let guarded = kit.change_guard(2).call(transaction, &data)?;
    let filtered = kit.filter(1).call(transaction, &data)?;
    let added = kit.extender(1).call(transaction, &data)?;
    Ok(
        matches!(guarded, Guarding::Nothing)
            && matches!(filtered, Filtering::Keep)
            && added.effects.as_slice().is_empty(),
    )
}

/// Whether the second updater counts up.
fn updates<L: Ledger>(
    kit: &Kit<Shipped>,
    view: &UpdateView,
    calls: &mut Steps<L>,
) -> Result<bool, Fail>
    requires { IsWhole shipped kit.now }
{
    let one = int(1);
    one.known();
    match kit.updater(2).call(&one, view, calls)? {
        Some(new) => Ok(is_int(&new, 2)),
        None => Ok(false),
    }
}

/// Whether the first effect map keeps the one place of the empty text.
fn maps(alloc: Global, kit: &Kit<Shipped>) -> Result<bool, Fail>
    requires { IsWhole shipped kit.now }
{
    match kit.effect_map(1).call(int(0), &Desc::new(alloc))? {
        Some(place) => Ok(is_int(&place, 0)),
        None => Ok(false),
    }
}

/// Whether a rule of each sort answers.
fn answers<L: Ledger>(alloc: Global, kit: &Kit<Shipped>, blank: Blank) -> Result<bool, Fail>
    requires name { blank.name ≡ L.name }
    requires parts { blank.parts ≡ L.parts }
    requires some { 0 < L.parts }
    requires whole { IsWhole shipped kit.now }
{
    let view = view(alloc)?;
    let mut calls = Steps::<L>::new(blank);
    Ok(
        combines(kit, &mut calls)?
            && reads(kit, &view.deps, &mut calls)?
            && filters(kit, &view.transaction)?
            && updates(kit, &view, &mut calls)?
            && maps(alloc, kit)?,
    )
}

/// The same, with a ledger for the calls.
fn all_answer(alloc: Global, kit: &Kit<Shipped>) -> Result<bool, Fail>
    requires { IsWhole shipped kit.now }
{
    answers::<Brand>(alloc, kit, Blank::new(1))
}

/// Whether a rule of each sort answers.
#[derive(Drop)]
struct RulesAnswer;

impl KitUser for RulesAnswer {
    type Answer = Result<bool, Fail>;

    ghost gives = { λ before answer after. ⊤ };

    fn use_kit(&mut self, alloc: Global, kit: &Kit<Shipped>) -> Result<bool, Fail> {
        all_answer(alloc, kit)
    }
}

#[test]
fn the_kit_of_the_shipped_rules(rt: HostRuntime) -> Result<(), Fail> {
    let answer = lend_kit(rt.alloc(), &mut RulesAnswer)?;
    assert!(rt; answer?);
    Ok(())
}
