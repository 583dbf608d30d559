//! Cases of slots: how many rules a creation and an update call, and that rules which aren't due aren't called at all. The crate has no
//! code of its own.
#![tactic(auto)]

#[cfg(test)]
mod calls;
#[cfg(test)]
mod declared;
#[cfg(test)]
mod kit;
#[cfg(test)]
mod running;
#[cfg(test)]
mod transactions;
