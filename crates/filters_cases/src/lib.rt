//! Cases of filters, and no code of its own.
#![tactic(auto)]

#[cfg(test)]
mod asked;
#[cfg(test)]
mod drafts;
#[cfg(test)]
mod states;
