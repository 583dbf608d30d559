// Styles over each other.
ghost use Rattle.std.specs.Prelude.{◌≡◌};
ghost use Rattle.pieces.specs.Styles.{over, same_style};

use decoration::Style;

/// Whether both are the same style.
pub fn same_style(a: Style, b: Style) -> bool
    ensures { result ≡ same_style a b }
{
    a.same(&b)
}

/// The second style over the first: a colour that is given replaces the one before, and flags add up.
pub(crate) fn over(under: Style, upper: Style) -> Style
    ensures { result ≡ over under upper }
{
    Style {
        fg: upper.fg.or(under.fg),
        bg: upper.bg.or(under.bg),
        bold: under.bold || upper.bold,
        underline: under.underline || upper.underline,
        reverse: under.reverse || upper.reverse,
    }
}
