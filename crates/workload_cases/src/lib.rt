//! Cases of the workload: its lines for no, three and eight transactions. The crate has no code of its own.
#![tactic(auto)]

#[cfg(test)]
mod made_lines;
