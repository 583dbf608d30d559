ghost use Rattle.std.specs.Prelude.{MatchOption};
ghost use Rattle.values.specs.Numbered.{HasNumbers};
ghost use Rattle.values.specs.Whole.{HasAll, IsFirstGap};

use crate::change_guard::ChangeGuard;
use crate::combiner::Combiner;
use crate::comparer::Comparer;
use crate::computer::Computer;
use crate::computer_n::ComputerN;
use crate::creator::Creator;
use crate::effect_map::EffectMap;
use crate::extender::Extender;
use crate::meanings::Meanings;
use crate::numbered::{find, first_gap};
use crate::rule_lists::RuleLists;
use crate::sort::{Gap, Sort};
use crate::tr_filter::TrFilter;
use crate::updater::Updater;

/// A rule for each number of each sort. That none is missing, and that each answers its number's meaning, is the word `IsWhole`,
/// which `new` gives and the readers need.
#[derive(Drop)]
pub struct Kit<M> {
    /// The rules that were handed in.
    pub lists: RuleLists<M>,
}

/// The first sort, and the least number of it, without a rule.
fn gap_in<M: Meanings>(lists: &RuleLists<M>) -> Option<Gap>
    ensures { MatchOption result (HasAll M.rules lists.now) (λ gap. IsFirstGap M.rules lists.now gap) }
{
    if let Some(number) = first_gap(lists.combiners.as_slice(), M::combiners()) {
        return Some(Gap {
            sort: Sort::Combine,
            number,
        });
    }
    if let Some(number) = first_gap(lists.comparers.as_slice(), M::comparers()) {
        return Some(Gap {
            sort: Sort::Compare,
            number,
        });
    }
    if let Some(number) = first_gap(lists.computers.as_slice(), M::computers()) {
        return Some(Gap {
            sort: Sort::Compute,
            number,
        });
    }
    if let Some(number) = first_gap(lists.list_computers.as_slice(), M::list_computers()) {
        return Some(Gap {
            sort: Sort::ComputeN,
            number,
        });
    }
    if let Some(number) = first_gap(lists.creators.as_slice(), M::creators()) {
        return Some(Gap {
            sort: Sort::Create,
            number,
        });
    }
    later_gap(lists)
}

/// The first sort from updaters on, and the least number of it, without a rule, where no sort before has a gap.
fn later_gap<M: Meanings>(lists: &RuleLists<M>) -> Option<Gap>
    requires combiners { HasNumbers (λ c. c.number) M.rules.combiners lists.now.combiners.items }
    requires comparers { HasNumbers (λ c. c.number) M.rules.comparers lists.now.comparers.items }
    requires computers { HasNumbers (λ c. c.number) M.rules.computers lists.now.computers.items }
    requires list_computers { HasNumbers (λ c. c.number) M.rules.list_computers lists.now.list_computers.items }
    requires creators { HasNumbers (λ c. c.number) M.rules.creators lists.now.creators.items }
    ensures { MatchOption result (HasAll M.rules lists.now) (λ gap. IsFirstGap M.rules lists.now gap) }
{
    if let Some(number) = first_gap(lists.updaters.as_slice(), M::updaters()) {
        return Some(Gap {
            sort: Sort::Update,
            number,
        });
    }
    if let Some(number) = first_gap(lists.effect_maps.as_slice(), M::effect_maps()) {
        return Some(Gap {
            sort: Sort::EffectMap,
            number,
        });
    }
    if let Some(number) = first_gap(lists.change_guards.as_slice(), M::change_guards()) {
        return Some(Gap {
            sort: Sort::ChangeGuard,
            number,
        });
    }
    if let Some(number) = first_gap(lists.filters.as_slice(), M::transaction_filters()) {
        return Some(Gap {
            sort: Sort::TrFilter,
            number,
        });
    }
    if let Some(number) = first_gap(lists.extenders.as_slice(), M::extenders()) {
        return Some(Gap {
            sort: Sort::Extender,
            number,
        });
    }
    None
}

impl<M: Meanings> Kit<M> {
    ghost use Rattle.std.specs.Prelude.{◌≡◌, IfErr, IfOk};
    ghost use Rattle.std.specs.List.{IsAmong};
    ghost use Rattle.transaction.specs.Numbers.{IsNumber};
    ghost use Rattle.values.specs.Stored.{Combines, Compares, Computes, ComputesLists, Creates, Updates, MapsEffects, Guards, Filters, Extends};
    ghost use Rattle.values.specs.Whole.{AllAnswer, IsFirstGap, IsWhole};

    /// The kit of these rules. `Err`: the first sort of which a number has no rule, and the least such number. Takes no memory.
    pub fn new(lists: RuleLists<M>) -> Result<Kit<M>, Gap>
        requires { AllAnswer M.rules lists }
        ensures whole { IfOk result (λ kit. IsWhole M.rules kit) }
        ensures lists { IfOk result (λ kit. kit.lists ≡ lists) }
        ensures gap { IfErr result (λ gap. IsFirstGap M.rules lists gap) }
    {
        match gap_in(&lists) {
            Some(gap) => Err(gap),
            None => Ok(Kit { lists }),
        }
    }

    /// The rule of a number, of those that were handed in. Takes no memory.
    pub fn combiner(&self, number: u32) -> &Combiner<M>
        requires whole { IsWhole M.rules self.now }
        requires number { IsNumber M.rules.combiners number }
        ensures number { result.now.number ≡ number }
        ensures lent { IsAmong self.now.lists.combiners.items result.now }
        ensures meant { Combines M.rules result.now }
    {
        match find(self.lists.combiners.as_slice(), number) {
            Some(place) => &self.lists.combiners[place],
            None => unreachable!(),
        }
    }

    /// The rule of a number, of those that were handed in. Takes no memory.
    pub fn comparer(&self, number: u32) -> &Comparer<M>
        requires whole { IsWhole M.rules self.now }
        requires number { IsNumber M.rules.comparers number }
        ensures number { result.now.number ≡ number }
        ensures lent { IsAmong self.now.lists.comparers.items result.now }
        ensures meant { Compares M.rules result.now }
    {
        match find(self.lists.comparers.as_slice(), number) {
            Some(place) => &self.lists.comparers[place],
            None => unreachable!(),
        }
    }

    /// The rule of a number, of those that were handed in. Takes no memory.
    pub fn computer(&self, number: u32) -> &Computer<M>
        requires whole { IsWhole M.rules self.now }
        requires number { IsNumber M.rules.computers number }
        ensures number { result.now.number ≡ number }
        ensures lent { IsAmong self.now.lists.computers.items result.now }
        ensures meant { Computes M.rules result.now }
    {
        match find(self.lists.computers.as_slice(), number) {
            Some(place) => &self.lists.computers[place],
            None => unreachable!(),
        }
    }

    /// The rule of a number, of those that were handed in. Takes no memory.
    pub fn computer_n(&self, number: u32) -> &ComputerN<M>
        requires whole { IsWhole M.rules self.now }
        requires number { IsNumber M.rules.list_computers number }
        ensures number { result.now.number ≡ number }
        ensures lent { IsAmong self.now.lists.list_computers.items result.now }
        ensures meant { ComputesLists M.rules result.now }
    {
        match find(self.lists.list_computers.as_slice(), number) {
            Some(place) => &self.lists.list_computers[place],
            None => unreachable!(),
        }
    }

    /// The rule of a number, of those that were handed in. Takes no memory.
    pub fn creator(&self, number: u32) -> &Creator<M>
        requires whole { IsWhole M.rules self.now }
        requires number { IsNumber M.rules.creators number }
        ensures number { result.now.number ≡ number }
        ensures lent { IsAmong self.now.lists.creators.items result.now }
        ensures meant { Creates M.rules result.now }
    {
        match find(self.lists.creators.as_slice(), number) {
            Some(place) => &self.lists.creators[place],
            None => unreachable!(),
        }
    }

    /// The rule of a number, of those that were handed in. Takes no memory.
    pub fn updater(&self, number: u32) -> &Updater<M>
        requires whole { IsWhole M.rules self.now }
        requires number { IsNumber M.rules.updaters number }
        ensures number { result.now.number ≡ number }
        ensures lent { IsAmong self.now.lists.updaters.items result.now }
        ensures meant { Updates M.rules result.now }
    {
        match find(self.lists.updaters.as_slice(), number) {
            Some(place) => &self.lists.updaters[place],
            None => unreachable!(),
        }
    }

    /// The rule of a number, of those that were handed in. Takes no memory.
    pub fn effect_map(&self, number: u32) -> &EffectMap<M>
        requires whole { IsWhole M.rules self.now }
        requires number { IsNumber M.rules.effect_maps number }
        ensures number { result.now.number ≡ number }
        ensures lent { IsAmong self.now.lists.effect_maps.items result.now }
        ensures meant { MapsEffects M.rules result.now }
    {
        match find(self.lists.effect_maps.as_slice(), number) {
            Some(place) => &self.lists.effect_maps[place],
            None => unreachable!(),
        }
    }

    /// The rule of a number, of those that were handed in. Takes no memory.
    pub fn change_guard(&self, number: u32) -> &ChangeGuard<M>
        requires whole { IsWhole M.rules self.now }
        requires number { IsNumber M.rules.change_guards number }
        ensures number { result.now.number ≡ number }
        ensures lent { IsAmong self.now.lists.change_guards.items result.now }
        ensures meant { Guards M.rules result.now }
    {
        match find(self.lists.change_guards.as_slice(), number) {
            Some(place) => &self.lists.change_guards[place],
            None => unreachable!(),
        }
    }

    /// The rule of a number, of those that were handed in. Takes no memory.
    pub fn filter(&self, number: u32) -> &TrFilter<M>
        requires whole { IsWhole M.rules self.now }
        requires number { IsNumber M.rules.transaction_filters number }
        ensures number { result.now.number ≡ number }
        ensures lent { IsAmong self.now.lists.filters.items result.now }
        ensures meant { Filters M.rules result.now }
    {
        match find(self.lists.filters.as_slice(), number) {
            Some(place) => &self.lists.filters[place],
            None => unreachable!(),
        }
    }

    /// The rule of a number, of those that were handed in. Takes no memory.
    pub fn extender(&self, number: u32) -> &Extender<M>
        requires whole { IsWhole M.rules self.now }
        requires number { IsNumber M.rules.extenders number }
        ensures number { result.now.number ≡ number }
        ensures lent { IsAmong self.now.lists.extenders.items result.now }
        ensures meant { Extends M.rules result.now }
    {
        match find(self.lists.extenders.as_slice(), number) {
            Some(place) => &self.lists.extenders[place],
            None => unreachable!(),
        }
    }
}
