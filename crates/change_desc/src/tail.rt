ghost use Rattle.std.specs.Prelude.{length, ◌≡◌, ◌≤◌};
ghost use Rattle.change_desc.specs.Sections.{counted, normal};
ghost use Rattle.change_desc.specs.Tails.{beyond, is_fresh, Loads, tail_of, is_spent, opened, is_opened, is_deletion, is_insertion, IsTail, left_old, still_old, still_new};

use crate::section::Section;

/// What is left of a section in a walk over one of its texts: characters kept, a replacement not begun
/// (the old characters and the new), or characters of one that was begun.
#[derive(Clone, Copy, Drop)]
pub(crate) enum Tail {
    Kept(u32),
    Fresh(u32, u32),
    Opened(u32),
}

impl Tail {
    /// Characters left of a replacement that was begun.
    pub(crate) fn opened(left: u32) -> Tail
        ensures { result ≡ opened left }
    {
        if left == 0 {
            Tail::Kept(0)
        } else {
            Tail::Opened(left)
        }
    }

    pub(crate) fn is_deletion(self) -> bool
        ensures { result ≡ is_deletion self }
    {
        matches!(&self, Tail::Fresh(_, 0))
    }

    pub(crate) fn is_insertion(self) -> bool
        ensures { result ≡ is_insertion self }
    {
        matches!(&self, Tail::Fresh(0, _))
    }

    /// How many old characters it has left, in a first set.
    pub(crate) fn still_old(self) -> u32
        ensures { result ≡ still_old self }
    {
        match self {
            Tail::Kept(count) => count,
            Tail::Fresh(count, _) => count,
            Tail::Opened(_) => 0,
        }
    }

    /// How many new characters it has left, in a second set.
    pub(crate) fn still_new(self) -> u32
        ensures { result ≡ still_new self }
    {
        match self {
            Tail::Kept(count) => count,
            Tail::Fresh(_, len) => len,
            Tail::Opened(_) => 0,
        }
    }

    pub(crate) fn is_opened(self) -> bool
        ensures { result ≡ is_opened self }
    {
        matches!(&self, Tail::Opened(_))
    }

    pub(crate) fn of(section: &Section<u32>) -> Tail
        ensures { result ≡ tail_of section.now }
    {
        match section {
            Section::Keep(count) => Tail::Kept(*count),
            Section::Replace(count, len) => Tail::Fresh(*count, *len),
        }
    }

    /// Whether nothing is left of it.
    pub(crate) fn is_spent(self) -> bool
        ensures { result ≡ is_spent self }
    {
        matches!(&self, Tail::Kept(0))
    }

    /// The next section where nothing is left, and how many sections are taken then.
    pub(crate) fn load(self, sections: &[Section<u32>], taken: usize) -> (Tail, usize)
        requires is_tail { IsTail self }
        requires within { taken ≤ length sections.now }
        requires is_normal { normal counted sections.now ≡ sections.now }
        ensures { Loads sections.now self result.0 taken result.1 }
    {
        if self.is_spent() && taken < sections.len() {
            (Tail::of(&sections[taken]), taken + 1)
        } else {
            (self, taken)
        }
    }

    pub(crate) fn is_fresh(self) -> bool
        ensures { result ≡ is_fresh self }
    {
        matches!(&self, Tail::Fresh(_, _))
    }

    /// How many characters it has left along its old text.
    pub(crate) fn left_old(self) -> u32
        ensures { result ≡ left_old self }
    {
        match self {
            Tail::Kept(count) => count,
            Tail::Fresh(count, _) => count,
            Tail::Opened(count) => count,
        }
    }

    /// It without the first characters of those that were begun.
    pub(crate) fn beyond(self, count: u32) -> Tail
        requires { count ≤ left_old self }
        ensures { result ≡ beyond count self }
    {
        match self {
            Tail::Kept(left) => Tail::Kept(left - count),
            Tail::Fresh(old, len) => Tail::Fresh(old, len),
            Tail::Opened(left) => Tail::opened(left - count),
        }
    }
}
