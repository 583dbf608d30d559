//! Cases of set contents, extension trees, dependency graphs and configurations: worked examples, each call that takes
//! memory once on its way to an answer, and large trees. The crate has no code of its own.
#![tactic(auto)]

#[cfg(test)]
mod configurations;
#[cfg(test)]
mod contents;
#[cfg(test)]
mod graphs;
#[cfg(test)]
mod sizes;
#[cfg(test)]
mod trees;
