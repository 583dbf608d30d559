ghost use Rattle.std.specs.Prelude.{IfOk, [], ◌++◌, ◌<◌, ◌≡◌, length};
ghost use Rattle.range_set.specs.Order.{AllForward, before};
ghost use Rattle.range_set.specs.PrivateChunks.{Ascend};
ghost use Rattle.range_set.specs.PrivateBuilders.{IsBuilder, built};
ghost use Rattle.stable_order.specs.StableSort.{stable_sort};

use crate::chunk_builder::ChunkBuilder;
use crate::range_error::RangeError;
use crate::range_value::RangeValue;
use crate::ranged::{Findings, Ranged, look_through};
use stable_order::sort_stably;
use std::alloc::AllocError;
use std::mem;

/// Sorts a run of ranges and puts them after those of a builder; none is left. `Err`: out of memory.
#[inline(always)]
pub(crate) fn put_sorted<T: RangeValue>(
    run: &mut Vec<Ranged<T>>,
    builder: &mut ChunkBuilder<T>,
) -> Result<(), AllocError>
    requires builder { IsBuilder T.rules builder.old }
    requires order { Ascend 0 (built builder.old ++ stable_sort (before T.rules) run.old.items) }
    requires forward { AllForward run.old.items }
    ensures builder { IfOk result (λ _. IsBuilder T.rules builder.new) }
    ensures ranges { IfOk result (λ _. built builder.new ≡ built builder.old ++ stable_sort (before T.rules) run.old.items) }
    ensures none { IfOk result (λ _. run.new.items ≡ []) }
{
    if run.is_empty() {
        return Ok(());
    }
    put_run(run, builder)
}

/// Sorts a run that isn't empty and puts its ranges after those of a builder; none is left. `Err`: out of memory.
#[inline(never)]
fn put_run<T: RangeValue>(
    run: &mut Vec<Ranged<T>>,
    builder: &mut ChunkBuilder<T>,
) -> Result<(), AllocError>
    requires builder { IsBuilder T.rules builder.old }
    requires order { Ascend 0 (built builder.old ++ stable_sort (before T.rules) run.old.items) }
    requires forward { AllForward run.old.items }
    ensures builder { IfOk result (λ _. IsBuilder T.rules builder.new) }
    ensures ranges { IfOk result (λ _. built builder.new ≡ built builder.old ++ stable_sort (before T.rules) run.old.items) }
    ensures none { IfOk result (λ _. run.new.items ≡ []) }
{
    let alloc = *run.allocator();
    let mut ranges = mem::replace(run, Vec::new(alloc));
    let longest = sort(&mut ranges)?;
    builder.put_all(ranges, longest)
}

/// Sorts ranges stably. Those that are in order, as most runs are, are left as they are, after one look. Where one range stands too
/// late, as an added one mostly does, it is moved, and a second look tells that they are in order. Answers a length, in characters, that
/// none of them exceeds: that of the longest, or `u32::MAX` where a look doesn't find them in order. No contract speaks of it: it only
/// decides where chunks are cut. `Err`: out of memory.
fn sort<T: RangeValue>(ranges: &mut Vec<Ranged<T>>) -> Result<u32, AllocError>
    ensures { IfOk result (λ _. ranges.new.items ≡ stable_sort (before T.rules) ranges.old.items) }
{
    let Findings { fault, longest } = look_through(ranges);
    let Some(fault) = fault else {
        return Ok(longest);
    };
    if let RangeError::NotSorted { index } = fault {
        move_back(ranges, index);
        return sort_unless_sorted(ranges);
    }
    sort_stably(ranges)?;
    Ok(u32::MAX)
}

/// Sorts ranges stably, unless they are in order. Answers what `sort` does. `Err`: out of memory.
fn sort_unless_sorted<T: RangeValue>(ranges: &mut Vec<Ranged<T>>) -> Result<u32, AllocError>
    ensures { IfOk result (λ _. ranges.new.items ≡ stable_sort (before T.rules) ranges.old.items) }
{
    let Findings { fault, longest } = look_through(ranges);
    match fault {
        None => Ok(longest),
        Some(_) => {
            sort_stably(ranges)?;
            Ok(u32::MAX)
        }
    }
}

/// Moves the range at an index before those before it that it belongs before, up to the first that it doesn't.
fn move_back<T: RangeValue>(ranges: &mut Vec<Ranged<T>>, index: usize)
    requires { index < length ranges.old.items }
    ensures { stable_sort (before T.rules) ranges.new.items ≡ stable_sort (before T.rules) ranges.old.items }
{
    let mut at = index;
    while at > 0 && ranges[at].is_before(&ranges[at - 1]) {
        ranges.swap(at - 1, at);
        at -= 1;
    }
}
