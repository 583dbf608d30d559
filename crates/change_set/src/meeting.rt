ghost use Rattle.std.specs.Prelude.{IfOk, ◌≡◌};
ghost use Rattle.change_desc.specs.Meeting.{some_meet};
ghost use Rattle.change_desc.specs.Ranges.{replaced};
ghost use Rattle.change_desc.specs.Sections.{lengths, spelled};

use crate::change_set::ChangeSet;
use crate::only_replace::only_replace;
use std::alloc::AllocError;

impl ChangeSet {
    /// Whether some range that it replaces overlaps or touches one that another set of changes of the same document replaces.
    /// Where each replaces one range alone, no description is made. `Err`: out of memory.
    pub fn meets(&self, other: &ChangeSet) -> Result<bool, AllocError>
        ensures { IfOk result (λ meet. meet ≡ some_meet (replaced (lengths spelled self.now)) (replaced (lengths spelled other.now))) }
    {
        match (
            only_replace(self.sections.as_slice()),
            only_replace(other.sections.as_slice()),
        ) {
            (Some(own), Some(others)) => Ok(own.from <= others.to && others.from <= own.to),
            _ => self.desc()?.meets(&other.desc()?),
        }
    }
}
