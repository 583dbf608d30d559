use crate::change_guard::ChangeGuard;
use crate::combiner::Combiner;
use crate::comparer::Comparer;
use crate::computer::Computer;
use crate::computer_n::ComputerN;
use crate::creator::Creator;
use crate::effect_map::EffectMap;
use crate::extender::Extender;
use crate::tr_filter::TrFilter;
use crate::updater::Updater;

/// Rules of all sorts.
#[derive(Drop)]
pub struct RuleLists<M> {
    /// The rules that combine inputs.
    pub combiners: Vec<Combiner<M>>,
    /// The rules that compare values.
    pub comparers: Vec<Comparer<M>>,
    /// The rules that compute inputs.
    pub computers: Vec<Computer<M>>,
    /// The rules that compute lists of inputs.
    pub list_computers: Vec<ComputerN<M>>,
    /// The rules that make the first values of fields.
    pub creators: Vec<Creator<M>>,
    /// The rules that update fields.
    pub updaters: Vec<Updater<M>>,
    /// The maps of effects.
    pub effect_maps: Vec<EffectMap<M>>,
    /// The change guards.
    pub change_guards: Vec<ChangeGuard<M>>,
    /// The transaction filters.
    pub filters: Vec<TrFilter<M>>,
    /// The extenders.
    pub extenders: Vec<Extender<M>>,
}
