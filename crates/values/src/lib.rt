//! Values of facets and fields, what rules are shown and what they answer, what rules mean, and rules that strangers hand in.
//!
//! Contracts see values, and what rules are shown, as plain data: documents as lists of characters, sets as lists of ranges,
//! histories as their lists of items. `Meanings` tells what each number of each sort of rule means, as one record of functions
//! over such data. A layer above may rely on its laws: answers are of their shapes, and comparers say 'same' of equal values
//! alone. A stored rule (`Combiner`, `Comparer` and so on) is a closure with its number and the fact that its answers are what
//! the number means; a `Kit` has one of each number. So whatever rules are handed in, they answer as their numbers mean, or are
//! out of memory. Calls of combiners, computers, creators and updaters are counted. What may be declared with these rules is
//! defined here too: `Declarations`, when they are lawful, and what a growth of them is.
#![tactic(auto)]

mod answers;
mod change_guard;
mod combiner;
mod comparer;
mod computer;
mod computer_n;
mod creator;
mod deps;
mod effect_map;
mod extender;
mod kit;
mod kit_maps;
mod known;
mod making;
mod meanings;
mod numbered;
mod rule_lists;
mod scene;
mod shared_val;
mod shown_effect;
mod sort;
mod tr_core;
mod tr_filter;
mod tr_notes;
mod tr_view;
mod update_view;
mod updater;
mod val;

pub use answers::{Extension, Filtering, Guarding};
pub use change_guard::{ChangeGuard, GuardBox};
pub use combiner::{CombineBox, Combiner};
pub use comparer::{CompareBox, Comparer};
pub use computer::{ComputeBox, Computer};
pub use computer_n::{ComputeListBox, ComputerN};
pub use creator::{CreateBox, Creator};
pub use deps::Deps;
pub use effect_map::{EffectMap, EffectMapBox};
pub use extender::{ExtendBox, Extender};
pub use kit::Kit;
pub use making::one_each;
pub use meanings::Meanings;
pub use rule_lists::RuleLists;
pub use scene::Scene;
pub use shared_val::SharedVal;
pub use shown_effect::ShownEffect;
pub use sort::{Gap, Sort};
pub use tr_filter::{FilterBox, TrFilter};
pub use tr_notes::TrNotes;
pub use tr_view::TrView;
pub use update_view::UpdateView;
pub use updater::{UpdateBox, Updater};
pub use val::Val;
