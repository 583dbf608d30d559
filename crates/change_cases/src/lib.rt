//! Cases of descriptions and sets of changes: worked examples, each call that takes memory once on its way to an answer, and
//! what only a run shows. The crate has no code of its own.
#![tactic(auto)]

#[cfg(test)]
mod descriptions;
#[cfg(test)]
mod meetings;
#[cfg(test)]
mod sets;
#[cfg(test)]
mod walks;
