//! The shipped rules, by their numbers.
//!
//! `Shipped` is the `Meanings` of these rules alone. Each sort has one public function that answers by number, and a layer above
//! may rely on its answer being the row of that number in the tables, or out of memory.
#![tactic(auto)]

mod combining;
mod comparing;
mod computing;
mod creating;
mod effect_mapping;
mod extending;
mod filtering;
mod guarding;
mod history_staying;
mod listing;
mod making;
mod marking;
mod reading;
mod shapes;
mod shipped;
mod stepping;
mod updating;

pub use combining::combine;
pub use comparing::{compare, is_reflexive};
pub use computing::compute;
pub use creating::create;
pub use effect_mapping::map_effect;
pub use extending::extend;
pub use filtering::filter;
pub use guarding::guard;
pub use listing::compute_list;
pub use making::each_or_none;
pub use shipped::Shipped;
pub use updating::update;
