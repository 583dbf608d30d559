//! Cases of names: each declaring command once on its way, what is predeclared, each refusal with its values, and specs with ids
//! in place of names. The crate has no code of its own.
#![tactic(auto)]

#[cfg(test)]
mod accepted;
#[cfg(test)]
mod playing;
#[cfg(test)]
mod refused;
#[cfg(test)]
mod specs;
#[cfg(test)]
mod unconfigured;
#[cfg(test)]
mod values_refused;
