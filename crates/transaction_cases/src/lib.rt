//! Cases of plain data, kept effects and transactions, and no code of its own.
#![tactic(auto)]

#[cfg(test)]
mod drafts;
#[cfg(test)]
mod effects;
#[cfg(test)]
mod kept;
#[cfg(test)]
mod merging;
#[cfg(test)]
mod plain;
