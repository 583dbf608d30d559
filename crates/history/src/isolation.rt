ghost use Rattle.std.specs.Prelude.{◌≡◌};
ghost use Rattle.history.specs.Joining.{closes_before, closes_after};

/// Where a change closes its group (Reference Manual, isolateHistory).
#[derive(Clone, Copy, PartialEq, Eq, Debug, Drop)]
pub enum Isolation {
    /// Before it: it starts a group.
    Before,
    /// After it: it ends a group.
    After,
    /// On both sides.
    Full,
}

impl Isolation {
    /// Whether the group before the change is closed.
    pub(crate) fn is_before(isolation: Option<Isolation>) -> bool
        ensures { result ≡ closes_before isolation }
    {
        match isolation {
            Some(Isolation::Before) | Some(Isolation::Full) => true,
            _ => false,
        }
    }

    /// Whether the change's group is closed after it.
    pub(crate) fn is_after(isolation: Option<Isolation>) -> bool
        ensures { result ≡ closes_after isolation }
    {
        match isolation {
            Some(Isolation::After) | Some(Isolation::Full) => true,
            _ => false,
        }
    }
}
