ghost use Rattle.std.specs.Prelude.{◌≡◌};
ghost use Rattle.change_set.specs.Protection.{takes};

/// One of the two halves that a filter gives: what stays, or what is dropped.
#[derive(Clone, Copy, Drop)]
pub(crate) enum Half {
    Kept,
    Dropped,
}

impl Half {
    /// Whether it has a change of text that is protected or not.
    pub(crate) fn takes(self, is_protected: bool) -> bool
        ensures { result ≡ takes self is_protected }
    {
        match self {
            Half::Kept => !is_protected,
            Half::Dropped => is_protected,
        }
    }
}
