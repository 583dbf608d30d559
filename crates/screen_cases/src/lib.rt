//! Cases of cells, blocks, rows, screens, frames and replies that show a screen, worked from outside of the program.
//!
//! This crate has no code of its own: its tests stand beside the crates that they try, so that none is proved twice.
#![tactic(auto)]

#[cfg(test)]
mod drawings;
#[cfg(test)]
mod layouts;
