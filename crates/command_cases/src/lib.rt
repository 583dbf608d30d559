//! Cases of moves of a cursor, commands and typed keys, and no code of its own.
#![tactic(auto)]

#[cfg(test)]
mod keys;
#[cfg(test)]
mod moves;
#[cfg(test)]
mod player;
#[cfg(test)]
mod playing;
#[cfg(test)]
mod shelf;
#[cfg(test)]
mod specs;
