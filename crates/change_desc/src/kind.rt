ghost use Rattle.std.specs.Prelude.{◌≡◌};
ghost use Rattle.change_desc.specs.Sections.{joins};

/// What a section does: keeps, only inserts, only deletes, or replaces some characters by others.
#[derive(Clone, Copy, Drop)]
pub(crate) enum Kind {
    Keeps,
    Inserts,
    Deletes,
    Replaces,
}

impl Kind {
    /// Whether two sections of these kinds are one where they stand in a row.
    pub(crate) fn joins(self, next: Kind) -> bool
        ensures { result ≡ joins self next }
    {
        match (self, next) {
            (Kind::Keeps, Kind::Keeps) => true,
            (Kind::Inserts, Kind::Inserts) => true,
            (Kind::Deletes, Kind::Deletes) => true,
            _ => false,
        }
    }
}
