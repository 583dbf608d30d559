//! Cases of kits: of the shipped rules, and of a stranger's with one more; whole ones, and ones with a gap. The crate has no code
//! of its own.
#![tactic(auto)]

#[cfg(test)]
mod kit;
#[cfg(test)]
mod more;
#[cfg(test)]
mod more_kit;
#[cfg(test)]
mod more_rules;
#[cfg(test)]
mod views;
