//! Tests of the text of files. It has no code of its own.
#![tactic(auto)]

#[cfg(test)]
mod made;
#[cfg(test)]
mod reading;
#[cfg(test)]
mod writing;
