//! Cases of runs of collaboration: lines and their replies. The crate has no code of its own.
#![tactic(auto)]

#[cfg(test)]
mod playing;
#[cfg(test)]
mod refusals;
#[cfg(test)]
mod worlds;
