//! The kit of the shipped rules.
//!
//! `lend_kit` makes it, with a rule for each number of each sort, each of which answers its number's meaning, and lends it to a
//! `KitUser`. A layer above may rely on its user being lent a whole kit once, and on what that user ensures of its answer and of
//! itself; or on out of memory, where the user is as before. `lend_gated_kit` does the same with a `Gate` before the rules, which
//! counts their calls and may refuse them: the kit is whole all the same.
#![tactic(auto)]

mod combining;
mod filtering;
mod gate;
mod guarding;
mod kit_user;
mod lending;
mod listing;
mod reading;

pub use gate::{Answering, Gate};
pub use kit_user::KitUser;
pub use lending::{lend_gated_kit, lend_kit};
