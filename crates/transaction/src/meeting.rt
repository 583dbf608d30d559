ghost use Rattle.std.specs.Prelude.{IfErr, IfOk, false, ◌<◌, ◌^◌, ◌≡◌, ◌≢◌};
ghost use Rattle.change_desc.specs.Sections.{lengths, new_size, old_size, spelled};
ghost use Rattle.change_desc.specs.Map.{map_over};
ghost use Rattle.change_desc.specs.Of.{then_also};
ghost use Rattle.transaction.specs.PrivateMeetings.{IsMeeting, IsMet};
ghost use Rattle.transaction.specs.Refusals.{too_long};

use crate::error::TransactionError;
use change_desc::Desc;
use change_set::ChangeSet;
use std::alloc::AllocError;

/// Two sets of changes of one document as one, and what each does to what the other leads to.
#[derive(Drop)]
pub(crate) struct Meeting {
    /// Both.
    pub(crate) changes: ChangeSet,
    /// The second over the new document of the first.
    pub(crate) moved: ChangeSet,
    /// The first, with each text known by its length.
    pub(crate) mine: Desc,
    /// The second, likewise.
    pub(crate) theirs: Desc,
}

/// Two sets of changes of one document as one, and the second over the new document of the first, which is described.
fn met(
    first: &ChangeSet,
    second: &ChangeSet,
    mine: &Desc,
) -> Result<(ChangeSet, ChangeSet), AllocError>
    requires same { old_size second.now ≡ old_size first.now }
    requires mine { mine.now ≡ lengths spelled first.now }
    requires fits { new_size spelled (map_over spelled second.now mine.now false) < 2 ^ 32 }
    ensures { IfOk result (λ both. IsMet first.now second.now mine.now both.0 both.1) }
{
    let moved = second.map(mine, false)?;
    let changes = first.compose(&moved)?;
    Ok((changes, moved))
}

/// Two sets of changes of one document as one, where texts of the first stand first. It is refused where the new document has
/// more than `max` characters.
pub(crate) fn join_changes(
    first: &ChangeSet,
    second: &ChangeSet,
    max: u32,
) -> Result<Meeting, TransactionError>
    requires { old_size second.now ≡ old_size first.now }
    ensures both { IfOk result (λ both. IsMeeting max first.now second.now both) }
    ensures refused { IfErr result (λ error. error ≢ TransactionError.NoMemory → too_long max (then_also spelled first.now second.now) ≡ Some error) }
{
    let mine = first.desc()?;
    let theirs = second.desc()?;
    let len = theirs.mapped_len(&mine);
    if len > u64::from(max) {
        return Err(TransactionError::TooLong { len, max });
    }
    let (changes, moved) = met(first, second, &mine)?;
    Ok(Meeting {
        changes,
        moved,
        mine,
        theirs,
    })
}
