ghost use Rattle.values.specs.Shipped.{shipped};
ghost use Rattle.values.specs.Whole.{IsWhole};

use shipped_rules::Shipped;
use std::alloc::Global;
use values::Kit;

/// Who is lent the kit of the shipped rules.
pub trait KitUser {
    /// What it makes of the kit.
    type Answer;

    /// What is ensured of its state before, its answer and its state after.
    ghost gives: { Self → Self.Answer → Self → Type 0 };

    /// What it makes of a kit in which each number of each sort has a rule, and each rule answers its number's meaning.
    fn use_kit(&mut self, alloc: Global, kit: &Kit<Shipped>) -> Self::Answer
        requires { IsWhole shipped kit.now }
        ensures { gives self.old result self.new };
}
