ghost use Rattle.std.specs.Prelude.{MatchOption, IsTrue, IsFalse, ◌≡◌, ◌<◌, ◌+◌, ◌^◌};
ghost use Rattle.change_desc.specs.Sections.{counted, turned, old_of, new_of, kind, joins, joined, is_blank};
ghost use Rattle.change_desc.specs.Steps.{GivesRange};

use crate::changed_range::ChangedRange;
use crate::kind::Kind;

/// What a change does to some characters of the old text. `T` says what is known of a text that stands for others: the
/// text itself, or its length in characters.
#[derive(Clone, Copy, PartialEq, Eq, Debug, Drop)]
pub enum Section<T> {
    /// So many characters are kept.
    Keep(u32),
    /// So many characters, which may be none, are replaced by a text, which may be empty.
    Replace(u32, T),
}

/// A section that does nothing, for the unused places of a small vector.
impl<T> Default for Section<T> {
    fn default() -> Section<T> {
        Section::Keep(0)
    }
}

impl<T> Section<T> {
    /// How many characters of the old text it covers.
    pub fn old_len(&self) -> u32
        ensures { result ≡ old_of self.now }
    {
        match self {
            Section::Keep(count) => *count,
            Section::Replace(count, _) => *count,
        }
    }
}

impl Section<u32> {
    /// How many characters of the new text it gives.
    pub fn new_len(&self) -> u32
        ensures { result ≡ new_of counted self.now }
    {
        match self {
            Section::Keep(count) => *count,
            Section::Replace(_, len) => *len,
        }
    }

    pub(crate) fn kind(&self) -> Kind
        ensures { result ≡ kind counted self.now }
    {
        match self {
            Section::Keep(_) => Kind::Keeps,
            Section::Replace(0, _) => Kind::Inserts,
            Section::Replace(_, 0) => Kind::Deletes,
            Section::Replace(_, _) => Kind::Replaces,
        }
    }

    /// Whether it does nothing.
    pub(crate) fn is_blank(&self) -> bool
        ensures { result ≡ is_blank counted self.now }
    {
        self.old_len() == 0 && self.new_len() == 0
    }

    /// The range that it replaces, where it stands at these places of the old and the new text.
    pub(crate) fn range(&self, a: u32, b: u32) -> Option<ChangedRange>
        requires old_fits { a + old_of self.now < 2 ^ 32 }
        requires new_fits { b + new_of counted self.now < 2 ^ 32 }
        ensures { GivesRange self.now a b result }
    {
        match self {
            Section::Keep(_) => None,
            Section::Replace(count, len) => Some(ChangedRange {
                from_a: a,
                to_a: a + *count,
                from_b: b,
                to_b: b + *len,
            }),
        }
    }

    /// It and the next as one section, where the two join.
    pub(crate) fn joined(&self, next: &Section<u32>) -> Section<u32>
        requires joins { IsTrue (joins (kind counted self.now) (kind counted next.now)) }
        requires old_fits { old_of self.now + old_of next.now < 2 ^ 32 }
        requires new_fits { new_of counted self.now + new_of counted next.now < 2 ^ 32 }
        ensures { result ≡ joined counted self.now next.now }
    {
        match (self, next) {
            (Section::Keep(m), Section::Keep(n)) => Section::Keep(*m + *n),
            (Section::Keep(m), Section::Replace(_, _)) => Section::Keep(*m),
            (Section::Replace(m, t), Section::Keep(_)) => Section::Replace(*m, *t),
            (Section::Replace(m, t), Section::Replace(n, u)) => Section::Replace(*m + *n, *t + *u),
        }
    }

    /// It and the next as one section, if the two join.
    pub(crate) fn join(&self, next: &Section<u32>) -> Option<Section<u32>>
        requires old_fits { old_of self.now + old_of next.now < 2 ^ 32 }
        requires new_fits { new_of counted self.now + new_of counted next.now < 2 ^ 32 }
        ensures { MatchOption result (IsFalse (joins (kind counted self.now) (kind counted next.now))) (λ both. IsTrue (joins (kind counted self.now) (kind counted next.now)) × (both ≡ joined counted self.now next.now)) }
    {
        if self.kind().joins(next.kind()) {
            Some(self.joined(next))
        } else {
            None
        }
    }

    /// The way back.
    pub(crate) fn inverted(&self) -> Section<u32>
        ensures { result ≡ turned self.now }
    {
        match self {
            Section::Keep(count) => Section::Keep(*count),
            Section::Replace(count, len) => Section::Replace(*len, *count),
        }
    }
}
