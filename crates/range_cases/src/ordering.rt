ghost use Rattle.std.specs.Prelude.{nat_lt};
ghost use Rattle.std.proofs.lemmas.List.MinMax.{IsStrictWeakOrder-by_number};
ghost use Rattle.range_cases.specs.declared.ordering.Tens.{Tens};

use stable_order::{Ranked, sort_stably};
use std::cmp::Ordering;
use std::test::*;

/// A number that ranks by its tens.
#[derive(Clone, Copy, Debug, PartialEq, Eq, Drop)]
struct Tens {
    tens: u32,
    ones: u32,
}

impl Ranked for Tens {
    ghost before = { λ a b. nat_lt a.tens b.tens };

    fn compare(&self, other: &Tens) -> Ordering {
        self.tens.cmp(&other.tens)
    }

    ghost is_order = { IsStrictWeakOrder-by_number (λ (t : Tens). t.tens) };
}

fn ranked_at(tens: u32, ones: u32) -> Tens {
    Tens { tens, ones }
}

#[test]
fn values_that_rank_alike_keep_their_order(rt: HostRuntime) -> Result<(), Fail> {
    let mut items = vec![in rt.alloc();
        ranked_at(2, 1),
        ranked_at(1, 7),
        ranked_at(2, 0),
        ranked_at(1, 3),
    ]?;
    sort_stably(&mut items)?;
    assert!(rt;
        items.as_slice()
            == [
                ranked_at(1, 7),
                ranked_at(1, 3),
                ranked_at(2, 1),
                ranked_at(2, 0)
            ]
            .as_slice()
    );
    Ok(())
}
