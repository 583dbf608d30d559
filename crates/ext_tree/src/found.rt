// What a whole walk has met.
use crate::node::ExtId;
use crate::visit::Visit;

/// What a whole walk has met.
#[derive(Drop)]
pub struct Found {
    pub leaves: Vec<Visit>,
    pub slots: Vec<ExtId>,
}
