ghost use Rattle.std.specs.Prelude.{nat_lt};
ghost use Rattle.std.proofs.lemmas.List.MinMax.{IsStrictWeakOrder-by_number};
ghost use Rattle.change_set.specs.declared.protected_range.ProtectedRange.{ProtectedRange};

use stable_order::Ranked;
use std::cmp::Ordering;

/// A range of a document that is protected, as it was given: it may be empty or reversed, and end past the document.
#[derive(Clone, Copy, Drop)]
pub(crate) struct ProtectedRange {
    pub(crate) from: u32,
    pub(crate) to: u32,
}

impl Ranked for ProtectedRange {
    ghost before = { λ a b. nat_lt a.from b.from };

    fn compare(&self, other: &ProtectedRange) -> Ordering {
        self.from.cmp(&other.from)
    }

    ghost is_order = { IsStrictWeakOrder-by_number (λ (r : ProtectedRange). r.from) };
}
