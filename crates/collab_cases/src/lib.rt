//! Cases of collaboration: worked examples, each call that takes memory once on its way to an answer. The crate has no code of its
//! own.
#![tactic(auto)]

#[cfg(test)]
mod names;
#[cfg(test)]
mod pushes;
#[cfg(test)]
mod rows;
#[cfg(test)]
mod steps;
#[cfg(test)]
mod worlds;
