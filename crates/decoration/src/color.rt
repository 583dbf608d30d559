ghost use Rattle.std.specs.Prelude.{◌≡◌, ◌<◌, ◌≤◌, IfSome, IfNone, IsTrue, ◌↔◌};
ghost use Rattle.decoration.specs.Colors.{number_of};

/// One of the eight colours of a terminal, by the standard's numbers 0 to 7 (ECMA-48, select graphic rendition).
#[derive(Clone, Copy, Debug, Drop)]
pub enum Color {
    Black,
    Red,
    Green,
    Yellow,
    Blue,
    Magenta,
    Cyan,
    White,
}

impl Color {
    /// The colour of a number from 0 to 7; none of any other.
    pub fn of(number: u8) -> Option<Color>
        ensures some { IfSome result (λ color. number_of color ≡ number) }
        ensures none { IfNone result (8 ≤ number) }
    {
        match number {
            0 => Some(Color::Black),
            1 => Some(Color::Red),
            2 => Some(Color::Green),
            3 => Some(Color::Yellow),
            4 => Some(Color::Blue),
            5 => Some(Color::Magenta),
            6 => Some(Color::Cyan),
            7 => Some(Color::White),
            _ => None,
        }
    }

    /// Whether both are the same colour.
    #[tactic(auto, using(crate::proofs::Colors::same_number))]
    pub fn same(self, other: Color) -> bool
        ensures { IsTrue result ↔ (self ≡ other) }
    {
        self.number() == other.number()
    }

    /// The colour's number, from 0 to 7.
    pub fn number(self) -> u8
        ensures value { result ≡ number_of self }
        ensures bound { result < 8 }
    {
        match self {
            Color::Black => 0,
            Color::Red => 1,
            Color::Green => 2,
            Color::Yellow => 3,
            Color::Blue => 4,
            Color::Magenta => 5,
            Color::Cyan => 6,
            Color::White => 7,
        }
    }
}
