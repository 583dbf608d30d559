// Kits of a stranger's rules, with one more than the shipped ones: a whole one, and ones with a gap.
ghost use Rattle.std.specs.Prelude.{◌≡◌, ◌<◌, IfOk};
ghost use Rattle.values.specs.Whole.{IsWhole};
ghost use Rattle.kit_cases.specs.More.{more};

use crate::kit::is_int;
use crate::more::More;
use crate::more_rules::holds;
use cm_plain::Plain;
use std::marker::Brand;
use std::sync::ledger::{Blank, Ledger};
use std::test::*;
use steps::Steps;
use values::{Gap, Kit, Sort, Val};

fn is_true(value: &Val) -> bool {
    match value {
        Val::Plain(Plain::Bool(truth)) => *truth,
        _ => false,
    }
}

/// Whether the stranger's combiner answers that there are no inputs, and a shipped one still that their greatest is 0.
fn combines_more<L: Ledger>(kit: &Kit<More>, blank: Blank) -> Result<bool, Fail>
    requires name { blank.name ≡ L.name }
    requires parts { blank.parts ≡ L.parts }
    requires some { 0 < L.parts }
    requires whole { IsWhole more kit.now }
{
    let mut calls = Steps::<L>::new(blank);
    let none = kit.combiner(14).call(&[], &mut calls)?;
    let greatest = kit.combiner(4).call(&[], &mut calls)?;
    Ok(is_true(&none) && is_int(&greatest, 0))
}

/// The same, with a ledger for the calls.
fn more_combine(kit: &Kit<More>) -> Result<bool, Fail>
    requires { IsWhole more kit.now }
{
    combines_more::<Brand>(kit, Blank::new(1))
}

/// The gap of a kit without the last combiner.
fn without_combiner(kit: Kit<More>) -> Option<Gap>
    requires { IsWhole more kit }
{
    let mut lists = kit.lists;
    lists.combiners.truncate(13);
    match Kit::new(lists) {
        Ok(_) => None,
        Err(gap) => Some(gap),
    }
}

/// The gap of a kit without the updaters from the fourth on.
fn without_updaters(kit: Kit<More>) -> Option<Gap>
    requires { IsWhole more kit }
{
    let mut lists = kit.lists;
    lists.updaters.truncate(3);
    match Kit::new(lists) {
        Ok(_) => None,
        Err(gap) => Some(gap),
    }
}

/// What is looked at of a kit.
#[derive(Clone, Copy)]
pub(crate) enum Case {
    /// Combiners answer.
    Combines,
    /// Without the last combiner it has that gap.
    MissesCombiner,
    /// Without the updaters from the fourth on it has their gap.
    MissesUpdaters,
}

fn misses(gap: Option<Gap>, sort: Sort, number: u32) -> bool {
    gap == Some(Gap { sort, number })
}

/// Whether the kit is whole, and a case holds of it.
pub(crate) fn is_so(kit: Result<Kit<More>, Gap>, case: Case) -> Result<bool, Fail>
    requires { IfOk kit (λ kit. IsWhole more kit) }
{
    match (kit, case) {
        (Ok(kit), Case::Combines) => more_combine(&kit),
        (Ok(kit), Case::MissesCombiner) => Ok(misses(without_combiner(kit), Sort::Combine, 14)),
        (Ok(kit), Case::MissesUpdaters) => Ok(misses(without_updaters(kit), Sort::Update, 4)),
        (Err(_), _) => Ok(false),
    }
}

#[test]
fn a_kit_with_one_more_rule(rt: HostRuntime) -> Result<(), Fail> {
    assert!(rt; holds(rt.alloc(), Case::Combines)?);
    Ok(())
}

#[test]
fn a_kit_without_a_rule_has_its_gap(rt: HostRuntime) -> Result<(), Fail> {
    assert!(rt; holds(rt.alloc(), Case::MissesCombiner)?);
    assert!(rt; holds(rt.alloc(), Case::MissesUpdaters)?);
    Ok(())
}
