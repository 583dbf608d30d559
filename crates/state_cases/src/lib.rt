//! Cases of states: values, configurations, selections and filters through updates, and what is refused. The crate has no code of its
//! own.
#![tactic(auto)]

#[cfg(test)]
mod all;
#[cfg(test)]
mod declared;
#[cfg(test)]
mod filtering;
#[cfg(test)]
mod long;
#[cfg(test)]
mod reading;
#[cfg(test)]
mod refusals;
#[cfg(test)]
mod running;
#[cfg(test)]
mod specs;
#[cfg(test)]
mod updates;
