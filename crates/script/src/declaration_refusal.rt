use cm_plain::Str;

/// Why a declaration is refused whose names are as they should be. What has an id is named by its name.
#[derive(Debug, Drop)]
pub enum DeclarationRefusal {
    /// The range of the decoration of this index in its list, from 0, ends before it starts.
    Reversed { index: usize },
    /// The decoration of this index in its list, from 0, belongs before the one before it.
    NotSorted { index: usize },
    /// A mark over no characters.
    EmptyMark,
    /// A widget or a line decoration over characters.
    NotEmpty,
    /// A replacement of no characters.
    BadReplace,
    /// A widget's side is less than -10000 or more than 10000.
    BadSide { side: i32 },
    /// No line starts at the place. It doesn't come: no document is known where decorations are declared.
    NotLineStart { pos: u32 },
    /// No rule of this sort has the number.
    UnknownRule { sort: Str, number: u32 },
    /// A computed input of a static facet.
    StaticFacet { facet: Str },
    /// A value, or what a rule gives, that isn't of the shape that this facet or this field takes.
    WrongShape { id: Str },
    /// Two effect kinds that can't undo each other.
    BadInverse { effect: Str, back: Str },
    /// An effect kind that has an inverse.
    InverseTaken { effect: Str },
    /// There are as many of this kind as there may be.
    TooMany { kind: Str },
}
