// How many columns a text takes, found without memory.
ghost use Rattle.std.specs.Prelude.{◌≡◌, ◌+◌, ◌*◌, ◌<◌, ◌≤◌, length, chars};
ghost use Rattle.cells.specs.Layout.{cells_of, cluster_cells};

use crate::cluster::{char_count, has_control, is_printable, is_tab};
use unicode_segmentation::UnicodeSegmentation;
use unicode_width::UnicodeWidthStr;

/// How many columns the text takes from column `start` on, where tabs stop at multiples of `tab` columns.
pub fn columns_of(text: &str, tab: u8, start: u128) -> u128
    requires positive { 0 < tab }
    requires small { tab ≤ 16 }
    ensures value { result ≡ length (cells_of tab start (chars text.now)) }
    ensures bound { result ≤ 16 * length text.now }
{
    if is_printable(text) {
        return text.len() as u128;
    }
    columns_of_clusters(text, tab, start)
}

/// The same of any text, cluster by cluster.
fn columns_of_clusters(text: &str, tab: u8, start: u128) -> u128
    requires positive { 0 < tab }
    requires small { tab ≤ 16 }
    ensures value { result ≡ length (cells_of tab start (chars text.now)) }
    ensures bound { result ≤ 16 * length text.now }
{
    let stop = tab as u128;
    let offset = start % stop;
    let mut columns = 0;
    for cluster in text.graphemes(true) {
        columns += cluster_columns(cluster, stop, (offset + columns % stop) % stop);
    }
    columns
}

/// How many columns a cluster takes that begins in `column`, counted from a multiple of `tab`.
fn cluster_columns(cluster: &str, tab: u128, column: u128) -> u128
    requires inside { column < tab }
    requires small { tab ≤ 16 }
    ensures value { result ≡ length (cluster_cells tab column (chars cluster.now)) }
    ensures bound { result ≤ 16 * length cluster.now }
{
    if is_tab(cluster) {
        tab - column
    } else if has_control(cluster) {
        char_count(cluster) as u128
    } else {
        cluster.width() as u128
    }
}
