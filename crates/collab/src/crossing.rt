ghost use Rattle.std.specs.Prelude.{◌≡◌, ◌≢◌, ◌≤◌, false, map, IfOk, IfErr, None, Some, [], ◌∷◌};
ghost use Rattle.line_tree.specs.Text.{max_len};
ghost use Rattle.change_desc.specs.Sections.{counted, spelled, lengths, new_size, old_size};
ghost use Rattle.change_desc.specs.Map.{map_over};
ghost use Rattle.collab.specs.declared.error.CollabError.TheVariants.{NoMemory};
ghost use Rattle.collab.specs.Updates.{LeadOn};
ghost use Rattle.collab.specs.Lengths.{too_long};
ghost use Rattle.collab.specs.Clients.{crossed, set_before, update_over};

use crate::error::CollabError;
use crate::lengths::long;
use crate::update::{Update, push};
use change_desc::Desc;
use change_set::ChangeSet;
use std::alloc::{AllocError, Global};

/// An unconfirmed update over what the authority took, and that over the update.
#[derive(Drop)]
pub struct Crossed {
    pub update: Update,
    pub taken: ChangeSet,
}

/// Unconfirmed updates over what the authority took, and that over all of them.
#[derive(Drop)]
pub struct AllCrossed {
    pub updates: Vec<Update>,
    pub taken: ChangeSet,
}

/// An update over what the authority took before it, and that over the update. No text is too long.
#[tactic(auto, using(crate::proofs::Crossed::crossed))]
fn crossing(
    update: &Update,
    taken: &ChangeSet,
    own: &Desc,
    others: &Desc,
) -> Result<Crossed, AllocError>
    requires meet { old_size update.now.changes ≡ old_size taken.now }
    requires own { own.now ≡ lengths spelled update.now.changes }
    requires others { others.now ≡ lengths spelled taken.now }
    requires short { new_size counted (map_over counted own.now others.now false) ≤ max_len }
    ensures update { IfOk result (λ c. c.update ≡ update_over taken.now update.now) }
    ensures taken { IfOk result (λ c. c.taken ≡ set_before taken.now update.now.changes) }
{
    let changes = update.changes.map(others, false)?;
    let taken = taken.map(own, true)?;
    Ok(Crossed {
        update: Update {
            client: update.client.try_copy()?,
            number: update.number,
            changes,
        },
        taken,
    })
}

/// An unconfirmed update over what the authority took before it, and that over the update. `Err`: the text after both is too long;
/// or out of memory.
fn cross(update: &Update, taken: &ChangeSet) -> Result<Crossed, CollabError>
    requires { old_size update.now.changes ≡ old_size taken.now }
    ensures update { IfOk result (λ c. c.update ≡ update_over taken.now update.now) }
    ensures taken { IfOk result (λ c. c.taken ≡ set_before taken.now update.now.changes) }
    ensures short { IfOk result (λ c. too_long (new_size spelled (update_over taken.now update.now).changes ∷ []) ≡ None) }
    ensures refused { IfErr result (λ e. e ≢ NoMemory → too_long (new_size spelled (update_over taken.now update.now).changes ∷ []) ≡ Some e) }
{
    let own = update.changes.desc()?;
    let others = taken.desc()?;
    match long(own.mapped_len(&others)) {
        Some(error) => Err(error),
        None => Ok(crossing(update, taken, &own, &others)?),
    }
}

/// Unconfirmed updates over what the authority took before them, each in turn, and that over all of them. `Err`: the first text
/// that is too long; or out of memory.
pub(crate) fn all_crossed(
    alloc: Global,
    updates: &[Update],
    taken: &ChangeSet,
) -> Result<AllCrossed, CollabError>
    requires { LeadOn (old_size taken.now) updates.now }
    ensures updates { IfOk result (λ c. c.updates.items ≡ (crossed taken.now updates.now).updates) }
    ensures taken { IfOk result (λ c. c.taken ≡ (crossed taken.now updates.now).taken) }
    ensures short { IfOk result (λ c. too_long (map (λ u. new_size spelled u.changes) (crossed taken.now updates.now).updates) ≡ None) }
    ensures refused { IfErr result (λ e. e ≢ NoMemory → too_long (map (λ u. new_size spelled u.changes) (crossed taken.now updates.now).updates) ≡ Some e) }
{
    let mut over = taken.try_copy()?;
    let mut mapped = Vec::new(alloc);
    for update in updates {
        let both = cross(update, &over)?;
        push(&mut mapped, both.update)?;
        over = both.taken;
    }
    Ok(AllCrossed {
        updates: mapped,
        taken: over,
    })
}
