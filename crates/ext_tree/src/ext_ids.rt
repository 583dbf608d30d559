// A list of node ids.
ghost use Rattle.std.specs.Prelude.{◌≡◌, ℕ, List};

use crate::node::ExtId;
use std::marker::Model;

/// A list of node ids. Contracts see it as the list.
#[derive(Debug, Drop)]
pub struct ExtIds {
    ids: Vec<ExtId>,
}

impl Model for ExtIds {
    ghost Value = { List ℕ };

    ghost view = { λ l. l.ids.items };
}

impl ExtIds {
    /// The list of these ids. Takes no memory.
    pub fn of(ids: Vec<ExtId>) -> Self
        ensures { result ≡ ids.items }
    {
        ExtIds { ids }
    }

    /// The ids in order. Takes no memory.
    pub fn ids(&self) -> &[ExtId]
        ensures { result.now ≡ self.now }
    {
        &self.ids
    }
}
