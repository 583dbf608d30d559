ghost use Rattle.std.specs.Prelude.{◌≡◌};
ghost use Rattle.change_set.specs.Refusals.{fault, first_fault};

use crate::change_set::ChangeSet;
use crate::error::ChangesError;
use crate::inserted_text::InsertedText;

/// One change of a document (Reference Manual: ChangeSpec).
#[derive(Drop)]
pub enum Change {
    /// The characters from `from` to `to` replaced by a text.
    Span {
        from: u32,
        to: u32,
        insert: InsertedText,
    },
    /// A set of changes over the whole document.
    Set(ChangeSet),
}

impl Change {
    /// What is wrong with it as a change of a document of `len` characters; it has this index in its list.
    fn fault(&self, index: usize, len: u32) -> Option<ChangesError>
        ensures { result ≡ fault len index self.now }
    {
        match self {
            Change::Span {
                from,
                to,
                insert: _,
            } => {
                if *to < *from || len < *to {
                    Some(ChangesError::BadRange {
                        index,
                        from: *from,
                        to: *to,
                        len,
                    })
                } else {
                    None
                }
            }
            Change::Set(set) => {
                let have = set.len();
                if have == len {
                    None
                } else {
                    Some(ChangesError::LengthMismatch { want: len, have })
                }
            }
        }
    }
}

/// What is first wrong with some changes of a document of `len` characters.
pub(crate) fn first_fault(changes: &[Change], len: u32) -> Option<ChangesError>
    ensures { result ≡ first_fault len 0 changes.now }
{
    for (index, change) in changes.iter().enumerate() {
        if let Some(error) = change.fault(index, len) {
            return Some(error);
        }
    }
    None
}
