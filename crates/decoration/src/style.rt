ghost use Rattle.std.specs.Prelude.{◌≡◌, ◌↔◌, IsTrue, None, false};

use crate::color::Color;

/// How cells are drawn: a foreground and a background colour, where they are given, and three flags.
#[derive(Clone, Copy, Debug, Drop)]
pub struct Style {
    pub fg: Option<Color>,
    pub bg: Option<Color>,
    pub bold: bool,
    pub underline: bool,
    pub reverse: bool,
}

impl Style {
    /// Whether both are the same style.
    pub fn same(&self, other: &Style) -> bool
        ensures { IsTrue result ↔ (self.now ≡ other.now) }
    {
        same_color(self.fg, other.fg)
            && same_color(self.bg, other.bg)
            && self.bold == other.bold
            && self.underline == other.underline
            && self.reverse == other.reverse
    }

    /// The style without colours and flags.
    pub fn plain() -> Style
        ensures { result ≡ record { fg = None; bg = None; bold = false; underline = false; reverse = false } }
    {
        Style {
            fg: None,
            bg: None,
            bold: false,
            underline: false,
            reverse: false,
        }
    }
}

/// Whether both are the same colour, or none.
fn same_color(a: Option<Color>, b: Option<Color>) -> bool
    ensures { IsTrue result ↔ (a ≡ b) }
{
    match (a, b) {
        (Some(a), Some(b)) => a.same(b),
        (None, None) => true,
        _ => false,
    }
}
