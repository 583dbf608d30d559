ghost use Rattle.std.specs.Prelude.{◌≡◌, ◌≤◌, length, IfOk};
ghost use Rattle.commands.specs.Deleting.{beside, delete_event, edge};

use cursor_moves::{after, before};
use line_tree::Text;
use std::alloc::AllocError;

const DELETE_BACKWARD: [char; 15] = [
    'd', 'e', 'l', 'e', 't', 'e', '.', 'b', 'a', 'c', 'k', 'w', 'a', 'r', 'd',
];

const DELETE_FORWARD: [char; 14] = [
    'd', 'e', 'l', 'e', 't', 'e', '.', 'f', 'o', 'r', 'w', 'a', 'r', 'd',
];

/// The side of a cursor.
#[derive(Clone, Copy, PartialEq, Eq, Debug, Drop)]
pub(crate) enum Side {
    Back,
    Forward,
}

impl Side {
    /// The user event of a deletion on this side.
    pub(crate) fn event(self) -> &'static [char]
        ensures { result.now ≡ delete_event self }
    {
        match self {
            Side::Back => &DELETE_BACKWARD,
            Side::Forward => &DELETE_FORWARD,
        }
    }

    /// The last place of a text on this side.
    pub(crate) fn edge(self, text: &Text) -> u32
        ensures { result ≡ edge self text.now.characters }
    {
        match self {
            Side::Back => 0,
            Side::Forward => text.len(),
        }
    }

    /// The place next to another one on this side: over a cluster or a break. `Err`: out of memory.
    pub(crate) fn beside(self, text: &Text, place: u32) -> Result<u32, AllocError>
        requires { place ≤ length text.now.characters }
        ensures { IfOk result (λ to. to ≡ beside self text.now.characters place) }
    {
        match self {
            Side::Back => before(text, place),
            Side::Forward => after(text, place),
        }
    }
}
