//! The stable sort of a list by an order.
//!
//! `stable_sort` is a definition that layers above cite: an element that the order puts before another stands before
//! it, and elements of which neither is before the other keep their order. `sort_stably` gives exactly that list.
//! Lemmas say how sorting goes with appended and sorted lists.
#![tactic(auto)]

mod ranked;
mod sort;

pub use ranked::Ranked;
pub use sort::sort_stably;
