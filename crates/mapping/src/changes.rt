ghost use Rattle.std.specs.Prelude.{◌≡◌, ◌≤◌, IfOk};
ghost use Rattle.line_tree.specs.Text.{max_len};
ghost use Rattle.change_desc.specs.Sections.{old_size, new_size, spelled};
ghost use Rattle.script.specs.Reading.{Gives};
ghost use Rattle.mapping.specs.Changes.{set_of};

use change_set::{Change, ChangeSet};
use line_tree::MAX_LEN;
use script::LineError;
use std::alloc::Global;

/// The set that a list of changes of a document of `len` characters makes, or its first refusal. The only other error
/// is out of memory.
pub(crate) fn set_of(alloc: Global, changes: &[Change], len: u32) -> Result<ChangeSet, LineError>
    ensures set { Gives (λ set. set) result (set_of changes.now len) }
    ensures len { IfOk result (λ set. old_size set ≡ len) }
    ensures fits { IfOk result (λ set. (len ≤ max_len) × (new_size spelled set ≤ max_len)) }
{
    Ok(ChangeSet::of(alloc, changes, len, MAX_LEN)?)
}
