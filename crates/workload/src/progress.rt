ghost use Rattle.std.specs.Prelude.{◌≡◌, ◌+◌, ◌*◌, ◌<◌, ◌≤◌, ◌^◌};
ghost use Rattle.workload.specs.Edits.{after, next_edit};

use crate::draws::{next_number, value};
use crate::edit::{Edit, chosen, new_length};

/// Where a workload stands between two transactions.
#[derive(Clone, Copy, Drop)]
pub(crate) struct Progress {
    /// The number of the next transaction, from 1.
    pub(crate) number: u32,
    /// What the last draw set the generator's number to.
    pub(crate) seed: u32,
    /// The document's length in characters.
    pub(crate) length: u32,
}

/// The next transaction's edit, and where the workload stands after it.
#[derive(Clone, Copy, Drop)]
pub(crate) struct Transaction {
    pub(crate) edit: Edit,
    pub(crate) after: Progress,
}

/// The next transaction. Each adds at most 8 characters.
pub(crate) fn next_transaction(progress: Progress) -> Transaction
    requires number { progress.number < 2 ^ 20 }
    requires length { progress.length ≤ 8 * progress.number }
    ensures edit { result.edit ≡ next_edit progress }
    ensures after { result.after ≡ after progress }
    ensures length { result.after.length ≤ 8 * result.after.number }
{
    let first = next_number(progress.seed);
    let second = next_number(first);
    let third = next_number(second);
    let edit = chosen(progress.length, value(first), value(second), value(third));
    Transaction {
        edit,
        after: Progress {
            number: progress.number + 1,
            seed: third,
            length: new_length(progress.length, edit),
        },
    }
}
