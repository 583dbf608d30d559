//! Cases of sorting, range sets, decorations and selections: worked examples, each call that takes memory once on its way to an
//! answer, and what only a run shows. The crate has no code of its own.
#![tactic(auto)]

#[cfg(test)]
mod alone;
#[cfg(test)]
mod decorations;
#[cfg(test)]
mod far;
#[cfg(test)]
mod grouping;
#[cfg(test)]
mod numbered;
#[cfg(test)]
mod ordering;
#[cfg(test)]
mod paging;
#[cfg(test)]
mod selections;
#[cfg(test)]
mod sets;
#[cfg(test)]
mod sharing;
