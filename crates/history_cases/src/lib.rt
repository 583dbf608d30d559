//! Cases of histories, and no code of its own.
#![tactic(auto)]

#[cfg(test)]
mod acts;
#[cfg(test)]
mod histories;
#[cfg(test)]
mod scenes;
