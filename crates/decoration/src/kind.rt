ghost use Rattle.std.specs.Prelude.{◌≡◌, ◌↔◌, IfErr, IsOk, Some, None};
ghost use Rattle.decoration.specs.Places.{place_fault};

use crate::deco_error::DecoError;

/// What a decoration does.
#[derive(Clone, Copy, Debug, PartialEq, Eq, Drop)]
pub enum Kind {
    /// It styles the characters of a range.
    Mark,
    /// It shows a text at a place.
    Widget,
    /// It shows a text in place of a range.
    Replace,
    /// It styles a line, at its start.
    Line,
}

impl Kind {
    /// Whether a decoration of this kind may stand from one place to another, in characters. `Err`: `Reversed` where
    /// the range ends before it starts; else `EmptyMark` of an empty mark, `NotEmpty` of a widget or a line decoration
    /// over characters, `BadReplace` of an empty replacement.
    pub fn check(self, from: u32, to: u32) -> Result<(), DecoError>
        ensures accepted { IsOk result ↔ (place_fault self from to ≡ None) }
        ensures refused { IfErr result (λ error. place_fault self from to ≡ Some error) }
    {
        if from > to {
            return Err(DecoError::Reversed { index: 0 });
        }
        match (self, from == to) {
            (Kind::Mark, true) => Err(DecoError::EmptyMark),
            (Kind::Widget | Kind::Line, false) => Err(DecoError::NotEmpty),
            (Kind::Replace, true) => Err(DecoError::BadReplace),
            (Kind::Mark | Kind::Replace, false) | (Kind::Widget | Kind::Line, true) => Ok(()),
        }
    }
}
