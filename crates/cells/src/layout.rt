// A text cut into clusters, and the cells of each.
ghost use Rattle.std.specs.Prelude.{false, ◌≡◌, ◌+◌, ◌-◌, ◌<◌, ◌≤◌, ◌++◌, length, replicate, encode_utf8_all, chars, IfOk, OnOk};
ghost use Rattle.std.specs.String.{string_bytes};
ghost use Rattle.cells.specs.Layout.{blank, cells_of, cluster_cells, dot, rests, wide};

use crate::cell::Cell;
use crate::cluster::{char_count, has_control, is_tab};
use std::alloc::{AllocError, Global};
use unicode_segmentation::UnicodeSegmentation;
use unicode_width::UnicodeWidthStr;

/// The cells of a text that begins in column `start`, where a tab fills blanks up to the next multiple of `tab` columns.
/// Each control character shows as a point, and a cluster without columns has no cell. `Err`: out of memory.
pub fn cells_of(alloc: Global, text: &str, tab: u8, start: u128) -> Result<Vec<Cell>, AllocError>
    requires positive { 0 < tab }
    requires small { tab ≤ 16 }
    ensures { IfOk result (λ cells. cells.items ≡ cells_of tab start (chars text.now)) }
{
    let mut cells = Vec::new(alloc);
    let stop = tab as usize;
    let offset = (start % tab as u128) as usize;
    for cluster in text.graphemes(true) {
        let column = (offset + cells.len() % stop) % stop;
        push_cluster(alloc, &mut cells, cluster, stop, column)?;
    }
    Ok(cells)
}

/// A list of characters as a text. `Err`: out of memory.
pub fn text_of(alloc: Global, characters: &[char]) -> Result<String, AllocError>
    ensures bytes { IfOk result (λ s. string_bytes s ≡ encode_utf8_all characters.now) }
    ensures characters { IfOk result (λ s. chars (string_bytes s) ≡ characters.now) }
{
    let text = string_of(alloc, characters)?;
    Ok(text)
}

fn string_of(alloc: Global, characters: &[char]) -> Result<String, AllocError>
    ensures { IfOk result (λ s. string_bytes s ≡ encode_utf8_all characters.now) }
{
    characters.iter().copied().collect(alloc)
}

/// The characters of the text.
fn characters_of(alloc: Global, text: &str) -> Result<Vec<char>, AllocError>
    ensures { IfOk result (λ v. v.items ≡ chars text.now) }
{
    text.chars().collect(alloc)
}

/// Adds the cells of a cluster that begins in `column`, counted from a multiple of `tab`.
fn push_cluster(
    alloc: Global,
    cells: &mut Vec<Cell>,
    cluster: &str,
    tab: usize,
    column: usize,
) -> Result<(), AllocError>
    requires { column < tab }
    ensures { OnOk result (cells.new.items ≡ cells.old.items ++ cluster_cells tab column (chars cluster.now)) }
{
    if is_tab(cluster) {
        push_blanks(cells, tab - column)
    } else if has_control(cluster) {
        push_dots(alloc, cells, char_count(cluster))
    } else {
        push_wide(alloc, cells, cluster, cluster.width())
    }
}

fn push_blanks(cells: &mut Vec<Cell>, count: usize) -> Result<(), AllocError>
    ensures { OnOk result (cells.new.items ≡ cells.old.items ++ replicate count blank) }
{
    for _ in 0..count {
        cells.push(Cell::blank())?;
    }
    Ok(())
}

fn push_dots(alloc: Global, cells: &mut Vec<Cell>, count: usize) -> Result<(), AllocError>
    ensures { OnOk result (cells.new.items ≡ cells.old.items ++ replicate count dot) }
{
    for _ in 0..count {
        let shown = Vec::from_slice(alloc, &['.'])?;
        cells.push(Cell::first(shown, 0))?;
    }
    Ok(())
}

/// Adds the cells of a cluster that is so many columns wide.
fn push_wide(
    alloc: Global,
    cells: &mut Vec<Cell>,
    cluster: &str,
    width: usize,
) -> Result<(), AllocError>
    ensures { OnOk result (cells.new.items ≡ cells.old.items ++ wide (chars cluster.now) width) }
{
    if width == 0 {
        return Ok(());
    }
    let characters = characters_of(alloc, cluster)?;
    cells.push(Cell::first(characters, width - 1))?;
    push_further(cells, width)
}

/// Adds the further cells of a cluster that is so many columns wide.
fn push_further(cells: &mut Vec<Cell>, width: usize) -> Result<(), AllocError>
    requires { 0 < width }
    ensures { OnOk result (cells.new.items ≡ cells.old.items ++ rests 1 (width - 1)) }
{
    for before in 1..width {
        cells.push(Cell::further(before, width - 1 - before))?;
    }
    Ok(())
}
