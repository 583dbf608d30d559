ghost use Rattle.std.specs.Prelude.{◌≡◌, ◌↔◌, IsTrue};
ghost use Rattle.decoration.specs.Sides.{start_of, end_of};

/// Which ends of a range take in text that is inserted there (Reference Manual: MarkDecorationSpec.inclusive).
#[derive(Clone, Copy, Debug, Drop)]
pub struct Inclusive {
    pub start: bool,
    pub end: bool,
}

impl Inclusive {
    /// Whether both say the same of each end.
    pub fn same(&self, other: &Inclusive) -> bool
        ensures { IsTrue result ↔ (self.now ≡ other.now) }
    {
        self.start == other.start && self.end == other.end
    }

    /// The side of the start.
    pub(crate) fn start_side(self) -> i32
        ensures { result ≡ start_of self }
    {
        if self.start { -20000 } else { 20000 }
    }

    /// The side of the end.
    pub(crate) fn end_side(self) -> i32
        ensures { result ≡ end_of self }
    {
        if self.end { 20000 } else { -20000 }
    }
}
