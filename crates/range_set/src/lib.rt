//! Sets of ranges over a document, each with a value that says how its range moves.
//!
//! Contracts see a `RangeSet` as its list of ranges, in order of their starts, then of their start sides, then as they
//! were given; iterators as what is left of that list. All is proved once for every `RangeValue`. A set is a list of
//! shared pages of shared groups of shared chunks: mapping it moves pages, groups and chunks that no change meets as a whole, and
//! says how many ranges it mapped by themselves at most. Reading and comparing take no memory. Places are in characters.
#![tactic(auto)]

mod between;
mod chunk;
mod chunk_builder;
mod chunk_iter;
mod clear_walk;
mod group;
mod group_builder;
mod group_cursor;
mod group_list;
mod iter;
mod mapped_builder;
mod moving;
mod opening;
mod page;
mod page_builder;
mod parts;
mod points;
mod range_error;
mod range_ref;
mod range_set;
mod range_value;
mod ranged;
mod run;
mod sorting;
mod updating;

pub use between::Between;
pub use iter::Iter;
pub use points::Points;
pub use range_error::RangeError;
pub use range_ref::RangeRef;
pub use range_set::RangeSet;
pub use range_value::RangeValue;
pub use ranged::Ranged;
