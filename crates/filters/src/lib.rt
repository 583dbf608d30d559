//! Filters: what change filters, transaction filters and extenders make of a draft.
//!
//! The rule numbers are the values of facets in the start state, and a kit answers them. A layer above may rely on
//! `apply_filters` and `apply_extenders` giving exactly the draft that the definitions name: which rule is asked after which,
//! on what, and what its answer does; on the first refusal of what rules answered; and on `shown_from` giving what rules are shown
//! of a draft.
#![tactic(auto)]

mod check;
mod effects;
mod extenders;
mod filter_facets;
mod filters;
mod following;
mod guards;
mod lists;
mod numbers;
mod parts;
mod start;
mod view;

pub use extenders::apply_extenders;
pub use filter_facets::FilterFacets;
pub use filters::apply_filters;
pub use start::Start;
pub use view::shown_from;
