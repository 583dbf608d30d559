// What a walk has still to do.
use crate::visit::Visit;

/// A node is to be entered, or to be left when all below it was walked.
#[derive(Clone, Copy)]
pub enum Task {
    Enter(Visit),
    Leave(Visit),
}
