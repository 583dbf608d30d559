//! Cases of the registry: what is declared from the start, each call that declares once on its way to an id, each refusal
//! with its values, fields that are declared whole or leave nothing behind, and two values by id. The crate has no code
//! of its own.
#![tactic(auto)]

#[cfg(test)]
mod answer;
#[cfg(test)]
mod counts;
#[cfg(test)]
mod declared;
#[cfg(test)]
mod fields;
#[cfg(test)]
mod limits;
#[cfg(test)]
mod lookups;
#[cfg(test)]
mod nodes;
#[cfg(test)]
mod predeclared;
