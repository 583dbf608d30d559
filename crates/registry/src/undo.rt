// Adding to several lists, all or none.
ghost use Rattle.std.specs.Prelude.{◌≡◌, ◌++◌, ◌∷◌, [], take, OnOk, OnErr};

use listed::Listed;
use std::alloc::{AllocError, Global};
use std::mem;

/// Takes away the items from a count on. Takes no memory.
pub fn shorten<T: Drop>(alloc: Global, list: &mut Listed<T>, count: usize)
    ensures { list.new ≡ take count list.old }
{
    let mut items = mem::replace(list, Listed::empty(alloc)).into_vec();
    items.truncate(count);
    *list = Listed::new(items);
}

/// Adds an item to each of two lists. When out of memory both are as before.
pub fn push_both<A: Drop, B: Drop>(
    alloc: Global,
    list: &mut Listed<A>,
    item: A,
    others: &mut Vec<B>,
    other: B,
) -> Result<(), AllocError>
    ensures added { OnOk result (list.new ≡ list.old ++ item ∷ []) }
    ensures other_added { OnOk result (others.new.items ≡ others.old.items ++ other ∷ []) }
    ensures same { OnErr result (list.new ≡ list.old) }
    ensures other_same { OnErr result (others.new.items ≡ others.old.items) }
{
    let count = list.as_slice().len();
    list.push(item)?;
    match others.push(other) {
        Ok(()) => Ok(()),
        Err(_) => {
            shorten(alloc, list, count);
            Err(AllocError)
        }
    }
}
