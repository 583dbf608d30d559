//! Lists of ids: whether one is a member, and the least of them.
//!
//! A layer above may rely on `lesser`, and cites the definitions of membership and of the least.
#![tactic(auto)]

mod least;

pub use least::lesser;
