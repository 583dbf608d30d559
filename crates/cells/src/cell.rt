ghost use Rattle.std.specs.Prelude.{◌≡◌};
ghost use Rattle.std.specs.Option.{option_copied};
ghost use Rattle.cells.specs.Layout.{blank, first, further, is_whole, is_blank, cluster_of};

use std::marker::Model;

/// A cell of a row: a blank, the first cell of a grapheme cluster, or a further cell of the cluster before it.
#[derive(Drop)]
pub struct Cell {
    glyph: Glyph,
}

#[derive(Drop)]
enum Glyph {
    Blank,
    First { cluster: Vec<char>, after: usize },
    Further { before: usize, after: usize },
}

impl Model for Cell {
    ghost use Rattle.cells.specs.Layout.{Shown};

    ghost Value = { Shown };

    ghost use Rattle.cells.specs.Glyphs.{shown};

    ghost view = { λ c. shown c.glyph };
}

impl Cell {
    /// A cell that shows no cluster.
    pub fn blank() -> Cell
        ensures { result ≡ blank }
    {
        Cell {
            glyph: Glyph::Blank,
        }
    }

    /// The first cell of a cluster that has `after` further columns.
    pub(crate) fn first(cluster: Vec<char>, after: usize) -> Cell
        ensures { result ≡ first cluster.items after }
    {
        Cell {
            glyph: Glyph::First { cluster, after },
        }
    }

    /// A further cell of a cluster, with the numbers of its columns before and after it.
    pub(crate) fn further(before: usize, after: usize) -> Cell
        ensures { result ≡ further before after }
    {
        Cell {
            glyph: Glyph::Further { before, after },
        }
    }

    /// Whether the edges of a window of `cols` columns cut nothing of the cluster whose cell is in column `offset` of it.
    pub fn is_whole(&self, cols: u32, offset: u32) -> bool
        ensures { result ≡ is_whole cols offset self.now }
    {
        match &self.glyph {
            Glyph::Blank => true,
            Glyph::First { after, .. } => (offset as u128) + (*after as u128) < cols as u128,
            Glyph::Further { before, after } => {
                *before <= offset as usize && (offset as u128) + (*after as u128) < cols as u128
            }
        }
    }

    /// The characters of the cluster that begins here, if one does.
    pub fn cluster(&self) -> Option<&[char]>
        ensures { option_copied result ≡ cluster_of self.now }
    {
        match &self.glyph {
            Glyph::First { cluster, .. } => Some(cluster.as_slice()),
            _ => None,
        }
    }

    /// Whether the cell shows no cluster.
    pub fn is_blank(&self) -> bool
        ensures { result ≡ is_blank self.now }
    {
        matches!(&self.glyph, Glyph::Blank)
    }
}
