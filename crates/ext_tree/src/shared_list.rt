// A list of nodes that several visits are followed by.
use crate::precedence::Precedence;

/// A list of nodes that several visits are followed by, with the precedence that it is walked at.
#[derive(Clone, Copy)]
pub enum SharedList {
    /// What a facet enables, walked at default precedence after each input of the facet.
    Enabled(u32),
    /// What a field provides, walked at the precedence of each node of the field.
    Provided(u32, Precedence),
}
