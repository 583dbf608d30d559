//! Tests of lists, of the outside in memory (sources, sinks, files, clocks), and of runs over lines and over keys.
#![tactic(auto)]

#[cfg(test)]
mod files;
#[cfg(test)]
mod key_runs;
#[cfg(test)]
mod lists;
#[cfg(test)]
mod outside;
#[cfg(test)]
mod runs;
