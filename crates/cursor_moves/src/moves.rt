// Moves of a cursor by their names.
ghost use Rattle.std.specs.Prelude.{◌≡◌, ◌≤◌, length, IfOk};
ghost use Rattle.cursor_moves.specs.Moves.{moved};

use crate::places::{after, before, down, line_of, up};
use line_tree::Text;
use std::alloc::AllocError;
use term_keys::Move;

/// Where a move goes from a place of a text. `Err`: out of memory.
pub fn moved(text: &Text, direction: Move, place: u32) -> Result<u32, AllocError>
    requires { place ≤ length text.now.characters }
    ensures value { IfOk result (λ to. to ≡ moved text.now.characters direction place) }
    ensures inside { IfOk result (λ to. to ≤ length text.now.characters) }
{
    match direction {
        Move::Left => before(text, place),
        Move::Right => after(text, place),
        Move::Up => up(text, place),
        Move::Down => down(text, place),
        Move::LineStart => Ok(line_of(text, place).from),
        Move::LineEnd => Ok(line_of(text, place).to),
        Move::DocStart => Ok(0),
        Move::DocEnd => Ok(text.len()),
    }
}
