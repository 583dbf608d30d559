ghost use Rattle.std.specs.Prelude.{nat_lt};
ghost use Rattle.std.proofs.lemmas.List.MinMax.{IsStrictWeakOrder-by_number};
ghost use Rattle.blocks.specs.declared.line_range.LineRange.{LineRange};

use stable_order::Ranked;
use std::cmp::Ordering;

/// Lines between which a replacement hides the breaks: the numbers of the first and the last of them.
#[derive(Clone, Copy, Drop)]
pub(crate) struct LineRange {
    pub(crate) first: u64,
    pub(crate) last: u64,
}

impl Ranked for LineRange {
    ghost before = { λ a b. nat_lt a.first b.first };

    fn compare(&self, other: &LineRange) -> Ordering {
        self.first.cmp(&other.first)
    }

    ghost is_order = { IsStrictWeakOrder-by_number (λ (r : LineRange). r.first) };
}
