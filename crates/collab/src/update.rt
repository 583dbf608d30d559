ghost use Rattle.std.specs.Prelude.{◌≡◌, ◌++◌, ◌∷◌, [], IfOk, OnOk};
ghost use Rattle.std.specs.Str.{bytes_eq};

use change_set::ChangeSet;
use cm_plain::Str;
use std::alloc::{AllocError, Global};

/// An update of a shared text (package @codemirror/collab: Update).
#[derive(Drop)]
pub struct Update {
    /// The name of the client that made it.
    pub client: Str,
    /// How many local changes that client had made before it.
    pub number: u32,
    /// What it changes.
    pub changes: ChangeSet,
}

impl Update {
    /// The same update once more. `Err`: out of memory.
    pub fn try_copy(&self) -> Result<Update, AllocError>
        ensures { IfOk result (λ copy. copy ≡ self.now) }
    {
        Ok(Update {
            client: self.client.try_copy()?,
            number: self.number,
            changes: self.changes.try_copy()?,
        })
    }
}

/// Puts an update after others.
pub(crate) fn push(to: &mut Vec<Update>, update: Update) -> Result<(), AllocError>
    ensures { OnOk result (to.new.items ≡ to.old.items ++ update ∷ []) }
{
    to.push(update)?;
    Ok(())
}

/// Puts copies of updates after others.
pub(crate) fn extend(to: &mut Vec<Update>, updates: &[Update]) -> Result<(), AllocError>
    ensures { OnOk result (to.new.items ≡ to.old.items ++ updates.now) }
{
    for update in updates {
        let copy = update.try_copy()?;
        to.push(copy)?;
    }
    Ok(())
}

/// Copies of updates.
pub(crate) fn copies(alloc: Global, updates: &[Update]) -> Result<Vec<Update>, AllocError>
    ensures { IfOk result (λ all. all.items ≡ updates.now) }
{
    let mut all = Vec::new(alloc);
    extend(&mut all, updates)?;
    Ok(all)
}

/// Whether two names are the same.
pub(crate) fn is_same(name: &Str, other: &Str) -> bool
    ensures { result ≡ bytes_eq name.now other.now }
{
    name.chars() == other.chars()
}
