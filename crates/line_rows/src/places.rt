// The column of a place of a line of which nothing but its characters is shown.
ghost use Rattle.std.specs.Prelude.{◌≡◌, ◌+◌, ◌<◌, ◌≤◌, min, true, length, chars, IfOk, IfSome};
ghost use Rattle.std.specs.Int.{is_in_range};
ghost use Rattle.std.specs.List.{list_all};
ghost use Rattle.line_tree.specs.Text.{slice};
ghost use Rattle.cells.specs.Layout.{clusters};
ghost use Rattle.line_rows.specs.Place.{is_told, place_of};

use cells::{are_printable, char_count, columns_of, is_printable};
use line_tree::Text;
use pieces::slice_text;
use std::alloc::AllocError;
use unicode_segmentation::UnicodeSegmentation;

/// The column of the place `pos` of a line, which counts characters from the line's start, and the width of the cluster that
/// stands there: at least 1, and 1 where none does. `None`: the characters up to the one after the place don't tell. `Err`:
/// out of memory.
pub fn place_in_line(
    text: &Text,
    from: u32,
    to: u32,
    tab: u8,
    pos: u32,
) -> Result<Option<(u128, u128)>, AllocError>
    requires order { from ≤ to }
    requires within { to ≤ length text.now.characters }
    requires positive { 0 < tab }
    requires small { tab ≤ 16 }
    ensures { IfOk result (λ found. IfSome found (λ place. place ≡ place_of tab pos 0 0 (clusters (slice from to text.now.characters)))) }
{
    let stop = from + (to - from).min(pos.saturating_add(2));
    let (column, width, is_told) = place_between(text, from, stop, tab, pos)?;
    if stop == to {
        return Ok(Some((column, width)));
    }
    if is_told {
        return Ok(Some((column, width)));
    }
    Ok(None)
}

/// The column of a place of the characters from one place of a text to another and the width of the cluster there, and whether
/// a cluster stands after that one. Takes no memory where the characters are printable ASCII and stand in one run that the text
/// lends. `Err`: out of memory.
fn place_between(
    text: &Text,
    from: u32,
    stop: u32,
    tab: u8,
    pos: u32,
) -> Result<(u128, u128, bool), AllocError>
    requires order { from ≤ stop }
    requires within { stop ≤ length text.now.characters }
    requires positive { 0 < tab }
    requires small { tab ≤ 16 }
    ensures place { IfOk result (λ r. (r.0, r.1) ≡ place_of tab pos 0 0 (clusters (slice from stop text.now.characters))) }
    ensures told { IfOk result (λ r. r.2 ≡ true → is_told pos 0 (clusters (slice from stop text.now.characters)) ≡ true) }
{
    if from < stop && is_printable_run(text, from, stop) {
        return Ok(printable_place(stop - from, pos));
    }
    let part = slice_text(text, from, stop)?;
    Ok(place_in(part.as_str(), stop - from, tab, pos))
}

/// Whether the characters from one place to another stand in one run that the text lends, and are printable ASCII.
fn is_printable_run(text: &Text, from: u32, stop: u32) -> bool
    requires order { from < stop }
    requires within { stop ≤ length text.now.characters }
    ensures { result ≡ true → list_all (is_in_range 0x20 0x7E) (slice from stop text.now.characters) ≡ true }
{
    let run = text.run_at(from);
    let len = (stop - from) as usize;
    len <= run.len() && are_printable(&run[..len])
}

/// The column of the place `pos` of `len` characters of printable ASCII and the width of the one there, and whether one stands after
/// that.
fn printable_place(len: u32, pos: u32) -> (u128, u128, bool)
    ensures column { result.0 ≡ min pos len }
    ensures width { result.1 ≡ 1 }
    ensures told { result.2 ≡ true → pos + 1 < len }
{
    (u128::from(pos.min(len)), 1, pos.saturating_add(1) < len)
}

/// The column of a place of so many characters and the width of the cluster there, and whether a cluster stands after that
/// one.
fn place_in(part: &str, len: u32, tab: u8, pos: u32) -> (u128, u128, bool)
    requires len { len ≡ length (chars part.now) }
    requires positive { 0 < tab }
    requires small { tab ≤ 16 }
    ensures place { (result.0, result.1) ≡ place_of tab pos 0 0 (clusters (chars part.now)) }
    ensures told { result.2 ≡ true → is_told pos 0 (clusters (chars part.now)) ≡ true }
{
    if is_printable(part) {
        return printable_place(len, pos);
    }
    place_among(part, len, tab, pos)
}

/// The same, cluster by cluster.
fn place_among(part: &str, len: u32, tab: u8, pos: u32) -> (u128, u128, bool)
    requires len { len ≡ length (chars part.now) }
    requires positive { 0 < tab }
    requires small { tab ≤ 16 }
    ensures place { (result.0, result.1) ≡ place_of tab pos 0 0 (clusters (chars part.now)) }
    ensures told { result.2 ≡ true → is_told pos 0 (clusters (chars part.now)) ≡ true }
{
    let mut at = 0;
    let mut column = 0;
    for cluster in part.graphemes(true) {
        let width = columns_of(cluster, tab, column);
        let end = at + char_count(cluster) as u32;
        if at >= pos {
            return (column, width.max(1), end < len);
        }
        at = end;
        column += width;
    }
    (column, 1, false)
}
