ghost use Rattle.std.specs.Prelude.{◌≡◌, ◌↔◌, IsTrue};

use crate::inclusive::Inclusive;
use crate::mark::Mark;
use crate::style::Style;
use std::marker::Model;
use std::mem::size_of;

/// The style of a line decoration (Reference Manual: Decoration.line). It is kept as the mark of that style which is inclusive at
/// neither end: so range sets copy it as they copy a mark, in one word.
#[derive(Clone, Copy, Debug, Drop)]
pub struct LineStyle {
    mark: Mark,
}

/// The style of a line decoration has four bytes.
const _: () = prove!(size_of::<LineStyle>() == 4);

impl Model for LineStyle {
    ghost use Rattle.std.specs.Prelude.{◌≡◌, refl};
    ghost use Rattle.decoration.specs.declared.style.Style.{Style};
    ghost use Rattle.decoration.specs.LineStyles.{line_mark};

    ghost Value = { Style };

    ghost view = { λ l. l.mark.style };

    ghost invariant = { λ l. l.mark ≡ line_mark l.mark.style };

    ghost inverse = { λ s. record { mark = line_mark s } };

    ghost inverse_ok = { λ l h. rw h refl };
}

impl LineStyle {
    /// The style of a line decoration.
    pub fn new(style: Style) -> LineStyle
        ensures { result ≡ style }
    {
        let neither = Inclusive {
            start: false,
            end: false,
        };
        LineStyle {
            mark: Mark::new(style, neither),
        }
    }

    /// The style.
    pub fn style(&self) -> Style
        ensures { result ≡ self.now }
    {
        self.mark.style()
    }

    /// Whether both are the same style.
    pub fn same(&self, other: &LineStyle) -> bool
        ensures { IsTrue result ↔ (self.now ≡ other.now) }
    {
        self.style().same(&other.style())
    }
}
