ghost use Rattle.std.specs.Prelude.{◌≡◌, ◌+◌, ◌*◌, ◌<◌, ◌≤◌, ◌∷◌, drop};
ghost use Rattle.std.specs.Iterator.{YieldsFirstBy, item_count};
ghost use Rattle.workload.specs.MadeLines.{first_lines, line_of, made_lines, max_transactions};

use crate::made_line::MadeLine;
use crate::progress::{Progress, next_transaction};
use std::marker::Model;

/// The greatest number of transactions of a workload.
pub const MAX_TRANSACTIONS: u32 = 1_000_000;

/// A made workload, which contracts see as the list of its lines that are still to come.
#[derive(Drop)]
pub struct Workload {
    first: u8,
    left: u32,
    progress: Progress,
    ended: bool,
}

impl Model for Workload {
    ghost use Rattle.std.specs.Prelude.{ℕ, List, [], ◌∷◌, ◌++◌, ◌+◌, ◌*◌, ◌≤◌, drop, if◌then◌else◌};
    ghost use Rattle.workload.specs.MadeLines.{edit_lines, first_lines, max_transactions, summary};

    ghost Value = { List (List ℕ) };

    ghost view = { λ w. drop w.first first_lines ++ edit_lines w.left w.progress ++ (if w.ended then [] else summary ∷ []) };

    ghost invariant = { λ w. (w.first ≤ 4) × (w.progress.number + w.left ≤ max_transactions + 1) × (w.progress.length ≤ 8 * w.progress.number) };
}

impl Workload {
    /// The workload of so many transactions, at most `MAX_TRANSACTIONS`.
    pub fn new(transactions: u32) -> Workload
        requires { transactions ≤ max_transactions }
        ensures { result ≡ made_lines transactions }
    {
        Workload {
            first: 0,
            left: transactions,
            progress: Progress {
                number: 1,
                seed: 1,
                length: 0,
            },
            ended: false,
        }
    }
}

impl Iterator for Workload {
    type Item = MadeLine;

    ghost next_gives = { YieldsFirstBy line_of (λ w. w) };

    ghost remaining = { item_count (λ w. w) };

    fn next(&mut self) -> Option<MadeLine> {
        if self.first < 4 {
            let line = first_line(self.first);
            self.first += 1;
            return Some(MadeLine::Text(line));
        }
        if self.left > 0 {
            let time = 100 * self.progress.number;
            let next = next_transaction(self.progress);
            self.left -= 1;
            self.progress = next.after;
            return Some(MadeLine::Edit {
                time,
                edit: next.edit,
            });
        }
        if self.ended {
            return None;
        }
        self.ended = true;
        Some(MadeLine::Text("{\"summary\":{}}"))
    }
}

/// The line before the transactions that has this index.
fn first_line(index: u8) -> &'static str
    requires { index < 4 }
    ensures { drop index first_lines ≡ result.now ∷ drop (index + 1) first_lines }
{
    match index {
        0 => "{\"effect\":{\"name\":\"mark\",\"map\":2}}",
        1 =>
            "{\"field\":{\"name\":\"marks\",\"create\":5,\"update\":4,\"listens\":[\"mark\"],\"provides\":[{\"facet\":\"decorations\",\"rule\":6}]}}",
        2 => "{\"field\":{\"name\":\"count\",\"create\":2,\"update\":2}}",
        _ => "{\"start\":{\"extensions\":[\"history\",\"marks\",\"count\"]}}",
    }
}
