//! A counter of steps that takes no memory and no time: contracts see how many steps were counted, and at run time nothing is
//! kept. A caller that is given a counter hands it on, so that a bound on its steps can stand in its contract.
#![tactic(auto)]

mod steps;

pub use crate::steps::Steps;
