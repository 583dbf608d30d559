// Stops of a line, from the clusters of its characters.
ghost use Rattle.std.specs.Prelude.{◌≡◌, ◌+◌, ◌<◌, ◌≤◌, ◌^◌, length, chars, fold, find, ltb, IfOk};
ghost use Rattle.std.specs.Option.{unwrap_or};
ghost use Rattle.std.specs.String.{string_bytes};
ghost use Rattle.cells.specs.Layout.{clusters};
ghost use Rattle.line_tree.specs.Text.{slice};
ghost use Rattle.cursor_moves.specs.Stops.{ends_from, last_stop, later_stop, next_stop};

use cells::char_count;
use line_tree::{Line, Text};
use std::alloc::AllocError;
use unicode_segmentation::UnicodeSegmentation;

/// The last stop of a line at or before a place that isn't before its start. `Err`: out of memory.
pub(crate) fn last_stop(text: &Text, line: &Line, most: u32) -> Result<u32, AllocError>
    requires order { line.now.from ≤ line.now.to }
    requires inside { line.now.to ≤ length text.now.characters }
    requires started { line.now.from ≤ most }
    ensures value { IfOk result (λ stop. stop ≡ last_stop text.now.characters line.now most) }
    ensures most { IfOk result (λ stop. stop ≤ most) }
{
    let characters = line_text(text, line)?;
    Ok(last_end(characters.as_str(), line.from, most))
}

/// The first stop of a line after a place before its end. `Err`: out of memory.
pub(crate) fn next_stop(text: &Text, line: &Line, place: u32) -> Result<u32, AllocError>
    requires order { line.now.from ≤ line.now.to }
    requires inside { line.now.to ≤ length text.now.characters }
    requires before { place < line.now.to }
    ensures value { IfOk result (λ stop. stop ≡ next_stop text.now.characters line.now place) }
    ensures after { IfOk result (λ stop. place < stop) }
    ensures most { IfOk result (λ stop. stop ≤ line.now.to) }
{
    let characters = line_text(text, line)?;
    Ok(next_end(characters.as_str(), line.from, line.to, place))
}

/// The characters of a line, as a text of their own.
fn line_text(text: &Text, line: &Line) -> Result<String, AllocError>
    requires order { line.now.from ≤ line.now.to }
    requires inside { line.now.to ≤ length text.now.characters }
    ensures value { IfOk result (λ s. chars (string_bytes s) ≡ slice line.now.from line.now.to text.now.characters) }
    ensures count { IfOk result (λ s. line.now.from + length (chars (string_bytes s)) ≡ line.now.to) }
    ensures fits { line.now.to < 2 ^ 32 }
{
    let part = text.slice(line.from, line.to)?;
    let characters = part.text()?;
    Ok(characters)
}

/// The end of the last cluster that ends at or before a place, where the first cluster begins at `from`; `from` where none
/// does.
fn last_end(line: &str, from: u32, most: u32) -> u32
    requires fits { from + length (chars line.now) < 2 ^ 32 }
    requires started { from ≤ most }
    ensures value { result ≡ fold (later_stop most) from (ends_from from (clusters (chars line.now))) }
    ensures most { result ≤ most }
{
    let mut found = from;
    let mut place = from;
    for cluster in line.graphemes(true) {
        place += char_count(cluster) as u32;
        found = later_stop(most, found, place);
    }
    found
}

fn later_stop(most: u32, found: u32, stop: u32) -> u32
    requires { found ≤ most }
    ensures value { result ≡ later_stop most found stop }
    ensures most { result ≤ most }
{
    if stop <= most { stop } else { found }
}

/// The end of the first cluster that ends after a place, where the clusters stand from `from` to `to`.
fn next_end(line: &str, from: u32, to: u32, after: u32) -> u32
    requires whole { from + length (chars line.now) ≡ to }
    requires before { after < to }
    ensures value { result ≡ unwrap_or (find (ltb after) (ends_from from (clusters (chars line.now)))) to }
    ensures after { after < result }
    ensures most { result ≤ to }
{
    let mut place = from;
    for cluster in line.graphemes(true) {
        place += char_count(cluster) as u32;
        if place > after {
            return place;
        }
    }
    to
}
