// One list after another.
ghost use Rattle.std.specs.Prelude.{IfOk, ◌++◌, ◌≡◌};

use listed::Listed;
use std::alloc::AllocError;

/// One list after another. `Err`: out of memory.
pub(crate) fn joined<T: Drop>(first: Listed<T>, second: Listed<T>) -> Result<Listed<T>, AllocError>
    ensures { IfOk result (λ all. all ≡ first ++ second) }
{
    let mut items = first.into_vec();
    items.append(&mut second.into_vec())?;
    Ok(Listed::new(items))
}
