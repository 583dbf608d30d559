//! Cases of requests: each command of a session read once with its defaults, and each fault of a member with the member that
//! is named. The crate has no code of its own.
#![tactic(auto)]

#[cfg(test)]
mod decorations;
#[cfg(test)]
mod editor_commands;
#[cfg(test)]
mod faults;
#[cfg(test)]
mod reading;
#[cfg(test)]
mod requests_read;
