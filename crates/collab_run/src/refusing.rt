ghost use Rattle.std.specs.Prelude.{◌≡◌};
ghost use Rattle.script.specs.Refused.{line_error};
ghost use Rattle.collab_run.specs.Refused.{collab_refusal};

use collab::CollabError;
use script::{LineError, Refusal};

/// Why a line is not carried out whose event is refused so.
pub(crate) fn line_error(error: CollabError) -> LineError
    ensures { result ≡ line_error (collab_refusal error) }
{
    match error {
        CollabError::BadRange {
            index,
            from,
            to,
            len,
        } => LineError::Refused(Refusal::BadRange {
            index: index as u64,
            from,
            to,
            len,
        }),
        CollabError::LengthMismatch { want, have } => {
            LineError::Refused(Refusal::LengthMismatch { want, have })
        }
        CollabError::TooLong { len, max } => LineError::Refused(Refusal::TooLong { len, max }),
        CollabError::Stale { version } => LineError::Refused(Refusal::Stale { version }),
        CollabError::Ahead { from, version } => {
            LineError::Refused(Refusal::Ahead { from, version })
        }
        CollabError::NoMemory => LineError::NoMemory,
    }
}
