// How early extensions stand in the flat order.
ghost use Rattle.std.specs.Prelude.{◌≡◌};
ghost use Rattle.ext_tree.specs.Flat.{level};

/// How many precedences there are.
pub const PRECEDENCES: usize = 5;

/// How early an extension stands in the flat order, the highest first. (Reference Manual, Prec.)
#[derive(Clone, Copy)]
pub enum Precedence {
    Highest,
    High,
    Default,
    Low,
    Lowest,
}

impl Precedence {
    /// The place among precedences, 0 for the highest to 4 for the lowest. Takes no memory.
    pub fn level(self) -> usize
        ensures { result ≡ level self }
    {
        match self {
            Precedence::Highest => 0,
            Precedence::High => 1,
            Precedence::Default => 2,
            Precedence::Low => 3,
            Precedence::Lowest => 4,
        }
    }
}
