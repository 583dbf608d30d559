// The lines of workloads.
use workload::{Edit, MAX_TRANSACTIONS, MadeLine, Workload};

/// The lines before the transactions.
const FIRST: [MadeLine; 4] = [
    MadeLine::Text("{\"effect\":{\"name\":\"mark\",\"map\":2}}"),
    MadeLine::Text(
        "{\"field\":{\"name\":\"marks\",\"create\":5,\"update\":4,\"listens\":[\"mark\"],\"provides\":[{\"facet\":\"decorations\",\"rule\":6}]}}",
    ),
    MadeLine::Text("{\"field\":{\"name\":\"count\",\"create\":2,\"update\":2}}"),
    MadeLine::Text("{\"start\":{\"extensions\":[\"history\",\"marks\",\"count\"]}}"),
];

/// The first eight transactions: texts, of which the last ends with LF, a deletion and a mark.
const TRANSACTIONS: [MadeLine; 8] = [
    MadeLine::Edit {
        time: 100,
        edit: Edit::Insert {
            at: 0,
            size: 7,
            letter: 10113,
        },
    },
    MadeLine::Edit {
        time: 200,
        edit: Edit::Insert {
            at: 3,
            size: 4,
            letter: 5627,
        },
    },
    MadeLine::Edit {
        time: 300,
        edit: Edit::Insert {
            at: 0,
            size: 4,
            letter: 16212,
        },
    },
    MadeLine::Edit {
        time: 400,
        edit: Edit::Insert {
            at: 15,
            size: 6,
            letter: 12767,
        },
    },
    MadeLine::Edit {
        time: 500,
        edit: Edit::Delete { from: 17, to: 21 },
    },
    MadeLine::Edit {
        time: 600,
        edit: Edit::Insert {
            at: 15,
            size: 2,
            letter: 21183,
        },
    },
    MadeLine::Edit {
        time: 700,
        edit: Edit::Mark { from: 6, to: 13 },
    },
    MadeLine::Edit {
        time: 800,
        edit: Edit::Insert {
            at: 11,
            size: 8,
            letter: 10311,
        },
    },
];

/// Whether the next lines are these.
fn are_next(workload: &mut Workload, want: &[MadeLine]) -> bool {
    for line in want {
        if workload.next() != Some(*line) {
            return false;
        }
    }
    true
}

/// Whether the lines of a workload are the first ones, these and the summary, and then none.
fn gives(transactions: u32, want: &[MadeLine]) -> bool {
    if transactions > MAX_TRANSACTIONS {
        return false;
    }
    let mut workload = Workload::new(transactions);
    are_next(&mut workload, &FIRST)
        && are_next(&mut workload, want)
        && workload.next() == Some(MadeLine::Text("{\"summary\":{}}"))
        && workload.next().is_none()
}

#[test]
fn no_transactions_give_declarations_start_and_summary(rt: HostRuntime) {
    assert!(rt; gives(0, &[]));
}

#[test]
fn three_transactions_insert_three_texts(rt: HostRuntime) {
    assert!(rt; gives(3, &TRANSACTIONS[..3]));
}

#[test]
fn eight_transactions_delete_mark_and_break_a_line(rt: HostRuntime) {
    assert!(rt; gives(8, &TRANSACTIONS));
}
