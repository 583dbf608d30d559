ghost use Rattle.std.specs.Prelude.{◌≡◌, ◌≤◌};

use std::alloc::AllocError;

/// How many of `len` items come into the first part where they are cut into parts of about `most`: all, where they are no more than
/// that; half of them, where they would make one such part and one of at most `few`.
pub(crate) fn part_len(len: usize, most: usize, few: usize) -> usize
    requires { 1 ≤ most }
    ensures some { 1 ≤ len → 1 ≤ result }
    ensures within { result ≤ len }
    ensures few { result ≡ len → len ≤ most }
{
    if len <= most {
        return len;
    }
    if len - most <= few {
        return len / 2;
    }
    let parts = len / most;
    (parts - parts / 2) * most
}

/// The greatest number of items that two parts may have together to become one part, where so many make a part full: three quarters
/// of them at most, so that a few more don't part them again. No contract speaks of it.
pub(crate) fn joined_of(full: usize) -> usize {
    (full / 4).saturating_mul(3)
}

/// Makes room for so many more items in a list: for as many as are expected, if those are more, where there are none yet. `Err`: out
/// of memory.
#[inline(always)]
pub(crate) fn reserve<T>(list: &mut Vec<T>, more: usize, expected: usize) -> Result<(), AllocError>
    ensures { list.new.items ≡ list.old.items }
{
    if list.is_empty() {
        list.reserve_exact(more.max(expected))
    } else {
        list.reserve(more)
    }
}

/// Gives back the free room of a list that fills less than half of its room, rounded down: a list that is cut in half keeps its room.
#[inline(always)]
pub(crate) fn trim<T>(list: &mut Vec<T>)
    ensures { list.new.items ≡ list.old.items }
{
    if list.len() < list.capacity() / 2 {
        list.shrink_to_fit();
    }
}
