//! A list as a field of plain data: contracts see it as its items alone, and not the vector that holds them.
//!
//! A layer above may name a list in a definition as it names a number: the same list is the same value, whatever
//! memory holds it.
#![tactic(auto)]

mod list;

pub use list::Listed;
