ghost use Rattle.std.specs.Prelude.{◌≡◌, ◌↔◌, ◌<◌, IsTrue};
ghost use Rattle.decoration.specs.Marks.{MarkView, color_number, flag_number, has_flag};

use crate::color::Color;
use crate::inclusive::Inclusive;
use crate::style::Style;
use std::marker::Model;
use std::mem::size_of;

/// The number that stands for no colour: the colours have 0 to 7.
const NO_COLOR: u8 = 8;

/// A mark: it styles the characters of its range (Reference Manual: Decoration.mark). It is kept in four bytes, which are
/// copied as one word: range sets copy the mark of each range that they map.
#[derive(Clone, Copy, Debug, Drop)]
pub struct Mark {
    /// The number of the foreground colour, or 8 for none.
    fg: u8,
    /// The number of the background colour, or 8 for none.
    bg: u8,
    /// The style's flags: the sum of 1 for bold, 2 for underline and 4 for reverse.
    flags: u8,
    /// The inclusive ends: the sum of 1 for the start and 2 for the end.
    ends: u8,
}

/// A mark has four bytes.
const _: () = prove!(size_of::<Mark>() == 4);

impl Model for Mark {
    ghost use Rattle.std.specs.Prelude.{◌≤◌, refl};
    ghost use Rattle.decoration.specs.Marks.{MarkView, style_of, inclusive_of, color_number, style_number, inclusive_number};
    ghost use Rattle.decoration.specs.MarkNumbers.{color_back, flags_back, ends_back};

    ghost Value = { MarkView };

    ghost view = { λ m. record { style = style_of m.fg m.bg m.flags; inclusive = inclusive_of m.ends } };

    ghost invariant = { λ m. (m.fg ≤ 8) × (m.bg ≤ 8) × (m.flags ≤ 7) × (m.ends ≤ 3) };

    ghost inverse = { λ v. record {
      fg = color_number v.style.fg;
      bg = color_number v.style.bg;
      flags = style_number v.style;
      ends = inclusive_number v.inclusive;
    } };

    ghost inverse_ok = { λ m h. rw (color_back m.fg h.0, color_back m.bg h.1, flags_back m.flags h.2, ends_back m.ends h.3) refl };
}

impl Mark {
    /// A mark of a style, inclusive at these ends.
    pub fn new(style: Style, inclusive: Inclusive) -> Mark
        ensures { result ≡ record { style = style; inclusive = inclusive } }
    {
        Mark {
            fg: number_of_color(style.fg),
            bg: number_of_color(style.bg),
            flags: flag(style.bold, 1) + flag(style.underline, 2) + flag(style.reverse, 4),
            ends: flag(inclusive.start, 1) + flag(inclusive.end, 2),
        }
    }

    /// The style of its characters.
    pub fn style(&self) -> Style
        ensures { result ≡ self.now.style }
    {
        Style {
            fg: Color::of(self.fg),
            bg: Color::of(self.bg),
            bold: has_flag(self.flags, 1),
            underline: has_flag(self.flags, 2),
            reverse: has_flag(self.flags, 4),
        }
    }

    /// Which of its ends take in text that is inserted there.
    pub fn inclusive(&self) -> Inclusive
        ensures { result ≡ self.now.inclusive }
    {
        Inclusive {
            start: has_flag(self.ends, 1),
            end: has_flag(self.ends, 2),
        }
    }

    /// Whether both style alike and are inclusive alike.
    pub fn same(&self, other: &Mark) -> bool
        ensures { IsTrue result ↔ (self.now ≡ other.now) }
    {
        self.style().same(&other.style()) && self.inclusive().same(&other.inclusive())
    }
}

/// The number of a colour, or 8 for none.
fn number_of_color(color: Option<Color>) -> u8
    ensures { result ≡ color_number color }
{
    match color {
        Some(color) => color.number(),
        None => NO_COLOR,
    }
}

/// What a flag adds to a sum of flags.
fn flag(on: bool, worth: u8) -> u8
    ensures { result ≡ flag_number on worth }
{
    if on { worth } else { 0 }
}

/// Whether a sum of flags has the flag that adds so much, a power of two.
fn has_flag(sum: u8, worth: u8) -> bool
    requires { 0 < worth }
    ensures { result ≡ has_flag sum worth }
{
    sum / worth % 2 == 1
}
