// The widgets and replacements of a block.
ghost use Rattle.std.specs.Prelude.{◌≡◌, ◌≤◌, OnOk};
ghost use Rattle.pieces.specs.Filling.{put};
ghost use Rattle.pieces.specs.Items.{item_before, is_before_cursor, item_piece, rank};
ghost use Rattle.pieces.specs.ItemOrder.{item_before-order};

use crate::filling::Filling;
use crate::styles::over;
use decoration::{MAX_SIDE, Style};
use stable_order::Ranked;
use std::alloc::{AllocError, Global};
use std::cmp::Ordering;
use std::marker::Model;

/// A widget or a replacement: where it starts and ends, in characters of the document, a widget's side, and the text
/// that it shows.
#[derive(Drop)]
pub(crate) struct Item {
    pub(crate) place: u32,
    pub(crate) to: u32,
    pub(crate) side: Option<i32>,
    pub(crate) text: String,
    pub(crate) style: Style,
}

impl Model for Item {
    ghost use Rattle.std.specs.String.{string_bytes};
    ghost use Rattle.std.specs.Str.{chars};
    ghost use Rattle.pieces.specs.Items.{ItemView};

    ghost Value = { ItemView };

    ghost view = { λ x. record { place = x.place; to = x.to; side = x.side; text = chars (string_bytes x.text); style = x.style } };
}

impl Item {
    /// Its rank among those of its place: a widget's side, and a replacement after all widgets.
    fn rank(&self) -> i32
        ensures { result ≡ rank self.now.side }
    {
        match self.side {
            Some(side) => side,
            None => MAX_SIDE + 1,
        }
    }

    /// Whether it is a widget whose side is at most 0.
    fn is_before_cursor(&self) -> bool
        ensures { result ≡ is_before_cursor self.now.side }
    {
        match self.side {
            Some(side) => side <= 0,
            None => false,
        }
    }

    /// Puts the piece that shows it, in a block that starts at the place `from` and has a style of its own. `Err`: out of
    /// memory.
    pub(crate) fn push_to(
        &self,
        alloc: Global,
        filling: &mut Filling,
        from: u32,
        line: Style,
    ) -> Result<(), AllocError>
        requires { from ≤ self.now.place }
        ensures { OnOk result (filling.new ≡ put filling.old (item_piece from line self.now)) }
    {
        filling.push(
            alloc,
            self.place - from,
            self.text.as_str(),
            over(line, self.style),
            self.is_before_cursor(),
        )
    }
}

impl Ranked for Item {
    ghost before = { item_before };

    fn compare(&self, other: &Item) -> Ordering {
        self.place
            .cmp(&other.place)
            .then(self.rank().cmp(&other.rank()))
    }

    ghost is_order = { item_before-order };
}
