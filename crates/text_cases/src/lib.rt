//! Tests of texts. It has no code of its own.
#![tactic(auto)]

#[cfg(test)]
mod calls;
#[cfg(test)]
mod cutting;
#[cfg(test)]
mod long_lines;
#[cfg(test)]
mod made;
#[cfg(test)]
mod tree;
