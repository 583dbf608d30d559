ghost use Rattle.std.specs.Prelude.{◌≡◌, ◌∷◌, [], IfOk, length, map};
ghost use Rattle.collab.specs.Updates.{applied, LeadOn};
ghost use Rattle.collab.specs.Lengths.{too_long};
ghost use Rattle.change_desc.specs.Sections.{spelled, new_size};

use crate::error::CollabError;
use crate::update::Update;
use line_tree::{MAX_LEN, Text};
use std::alloc::AllocError;

/// A length that is past the limit.
pub(crate) fn long(len: u64) -> Option<CollabError>
    ensures { result ≡ too_long (len ∷ []) }
{
    if len > u64::from(MAX_LEN) {
        return Some(CollabError::TooLong { len, max: MAX_LEN });
    }
    None
}

/// The first length past the limit that a text has after some updates in turn.
pub(crate) fn first_long(updates: &[Update]) -> Option<CollabError>
    ensures { result ≡ too_long (map (λ u. new_size spelled u.changes) updates.now) }
{
    for update in updates {
        if let Some(error) = long(u64::from(update.changes.new_len())) {
            return Some(error);
        }
    }
    None
}

/// A text after some updates in turn. `Err`: out of memory.
pub(crate) fn applied(text: &Text, updates: &[Update]) -> Result<Text, AllocError>
    requires { LeadOn (length text.now.characters) updates.now }
    ensures { IfOk result (λ t. t.characters ≡ applied updates.now text.now.characters) }
{
    let mut all = text.try_copy()?;
    for update in updates {
        let next = update.changes.apply(&all)?;
        all = next;
    }
    Ok(all)
}
