// The column of a place of a block.
ghost use Rattle.std.specs.Prelude.{◌≡◌, ◌+◌, ◌*◌, ◌^◌, ◌<◌, ◌≤◌, length, chars};
ghost use Rattle.cells.specs.Layout.{cells_of};
ghost use Rattle.pieces.specs.Widths.{is_before};
ghost use Rattle.line_rows.specs.Column.{column_of};

use cells::columns_of;
use pieces::{Piece, Pieces};

/// The column of the place `pos`, which counts characters from the block's start, and the width of the piece that stands
/// there: at least 1, and 1 where no piece does. The column is the one in which the pieces begin and the sum of the widths
/// of those before the place.
pub fn column_of(pieces: &Pieces, tab: u8, pos: u32) -> (u128, u128)
    requires positive { 0 < tab }
    requires small { tab ≤ 16 }
    ensures { result ≡ column_of tab pos pieces.now.start pieces.now.pieces }
{
    let mut column = pieces.start();
    for piece in pieces.list() {
        let width = columns_of(piece.text(), tab, column);
        if !is_before(piece, pos) {
            return (column, width.max(1));
        }
        column += width;
    }
    (column, 1)
}

/// Whether a piece stands before the place.
fn is_before(piece: &Piece, pos: u32) -> bool
    ensures { result ≡ is_before pos piece.now }
{
    piece.place() < pos || (piece.place() == pos && piece.is_before_cursor())
}
