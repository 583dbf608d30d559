ghost use Rattle.std.specs.Prelude.{◌≡◌, OnErr, OnOk};
ghost use Rattle.stable_order.specs.StableSort.{stable_sort};

use crate::ranked::Ranked;
use std::alloc::AllocError;

/// Sorts a list by rank; values that rank alike keep their order. `Err`: out of memory, and the list is as before.
pub fn sort_stably<T: Ranked>(items: &mut Vec<T>) -> Result<(), AllocError>
    ensures ok { OnOk result (items.new.items ≡ stable_sort T.before items.old.items) }
    ensures err { OnErr result (items.new.items ≡ items.old.items) }
{
    items.sort_by(|a, b| a.compare(b))
}
