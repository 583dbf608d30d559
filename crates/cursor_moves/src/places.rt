// Where a cursor goes from a place.
ghost use Rattle.std.specs.Prelude.{◌≡◌, ◌-◌, ◌<◌, ◌≤◌, length, IfOk, MatchOption, None, Some, ◌+◌};
ghost use Rattle.line_tree.specs.Lines.{IsLineOf};
ghost use Rattle.cursor_moves.specs.Moves.{after, at_column, before, down, line_of, numbered_line, up};

use crate::stops::{last_stop, next_stop};
use line_tree::{Line, Text};
use std::alloc::AllocError;

/// The line in which a place stands.
pub(crate) fn line_of(text: &Text, place: u32) -> Line
    requires { place ≤ length text.now.characters }
    ensures value { result ≡ line_of text.now.characters place }
    ensures line { IsLineOf text.now.characters result }
    ensures starts { result.from ≤ place }
    ensures ends { place ≤ result.to }
    ensures inside { result.to ≤ length text.now.characters }
{
    text.line_at(place)
}

/// The start of the cluster that ends at a place, or that the place stands in; at the start of a line, the end of the line
/// before. (Reference Manual, cursorCharBackward.) `Err`: out of memory.
pub fn before(text: &Text, place: u32) -> Result<u32, AllocError>
    requires { place ≤ length text.now.characters }
    ensures value { IfOk result (λ to. to ≡ before text.now.characters place) }
    ensures less { IfOk result (λ to. to ≤ place - 1) }
{
    let line = line_of(text, place);
    if line.from < place {
        last_stop(text, &line, place - 1)
    } else {
        Ok(place.saturating_sub(1))
    }
}

/// The end of the cluster that starts at a place, or that the place stands in; at the end of a line, the start of the next one.
/// (Reference Manual, cursorCharForward.) `Err`: out of memory.
pub fn after(text: &Text, place: u32) -> Result<u32, AllocError>
    requires { place ≤ length text.now.characters }
    ensures value { IfOk result (λ to. to ≡ after text.now.characters place) }
    ensures more { IfOk result (λ to. place < length text.now.characters → place < to) }
    ensures inside { IfOk result (λ to. to ≤ length text.now.characters) }
{
    let line = line_of(text, place);
    if place < line.to {
        next_stop(text, &line, place)
    } else {
        Ok(place.saturating_add(1).min(text.len()))
    }
}

/// As many characters from the start of the line before as the place has before it in its line, at most that line's end, and
/// then back to the start of a cluster; from the first line, the start of the text. (Reference Manual, cursorLineUp.) `Err`: out
/// of memory.
pub fn up(text: &Text, place: u32) -> Result<u32, AllocError>
    requires { place ≤ length text.now.characters }
    ensures value { IfOk result (λ to. to ≡ up text.now.characters place) }
    ensures inside { IfOk result (λ to. to ≤ length text.now.characters) }
{
    let line = line_of(text, place);
    match numbered_line(text, line.number.saturating_sub(1)) {
        Some(target) => at_column(text, &target, place - line.from),
        None => Ok(0),
    }
}

/// As many characters from the start of the next line as the place has before it in its line, at most that line's end, and then
/// back to the start of a cluster; from the last line, the end of the text. (Reference Manual, cursorLineDown.) `Err`: out of
/// memory.
pub fn down(text: &Text, place: u32) -> Result<u32, AllocError>
    requires { place ≤ length text.now.characters }
    ensures value { IfOk result (λ to. to ≡ down text.now.characters place) }
    ensures inside { IfOk result (λ to. to ≤ length text.now.characters) }
{
    let line = line_of(text, place);
    match next_line(text, &line) {
        Some(target) => at_column(text, &target, place - line.from),
        None => Ok(text.len()),
    }
}

/// The line of a number, if there is one; numbers count from 1.
fn numbered_line(text: &Text, number: u64) -> Option<Line>
    ensures value { result ≡ numbered_line text.now.characters number }
    ensures line { MatchOption result (numbered_line text.now.characters number ≡ None) (λ line. (line.from ≤ line.to) × (line.to ≤ length text.now.characters)) }
{
    if number == 0 || number > text.lines() {
        None
    } else {
        Some(text.line(number))
    }
}

/// The line after a line, if there is one.
fn next_line(text: &Text, line: &Line) -> Option<Line>
    ensures value { result ≡ numbered_line text.now.characters (line.now.number + 1) }
    ensures line { MatchOption result (numbered_line text.now.characters (line.now.number + 1) ≡ None) (λ line. (line.from ≤ line.to) × (line.to ≤ length text.now.characters)) }
{
    if line.number < text.lines() {
        numbered_line(text, line.number + 1)
    } else {
        None
    }
}

/// So many characters from the start of a line, at most its end, and then back to the start of a cluster.
fn at_column(text: &Text, line: &Line, column: u32) -> Result<u32, AllocError>
    requires order { line.now.from ≤ line.now.to }
    requires inside { line.now.to ≤ length text.now.characters }
    ensures value { IfOk result (λ to. to ≡ at_column text.now.characters column line.now) }
    ensures inside { IfOk result (λ to. to ≤ length text.now.characters) }
{
    last_stop(text, line, line.from.saturating_add(column).min(line.to))
}
