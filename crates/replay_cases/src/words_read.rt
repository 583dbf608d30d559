use std::alloc::{AllocError, Global};
use std::test::Fail;
use words::Words;

/// What words ask for: `Edit` with a length of the file's name, and with its size.
#[derive(Clone, Copy, PartialEq, Eq)]
enum Asked {
    Nothing,
    Replay,
    Collab,
    Edit(usize, u32, u32),
    Make(u32),
}

fn read(alloc: Global, words: &[&str]) -> Result<Asked, AllocError> {
    Ok(match Words::of(alloc, words)? {
        None => Asked::Nothing,
        Some(Words::Replay) => Asked::Replay,
        Some(Words::Collab) => Asked::Collab,
        Some(Words::Edit { file, rows, cols }) => Asked::Edit(file.len(), rows, cols),
        Some(Words::Make { transactions }) => Asked::Make(transactions),
    })
}

/// Command lines that are accepted, each with what it asks for.
const ACCEPTED: [(&[&str], Asked); 12] = [
    (&["replay"], Asked::Replay),
    (&["collab"], Asked::Collab),
    (&["edit", "f", "1", "5"], Asked::Edit(1, 1, 5)),
    (&["edit", "a file", "500", "500"], Asked::Edit(6, 500, 500)),
    (&["edit", "f-", "024", "080"], Asked::Edit(2, 24, 80)),
    (&["edit", "edit", "1", "1"], Asked::Edit(4, 1, 1)),
    (&["edit", "é漢", "1", "1"], Asked::Edit(2, 1, 1)),
    (&["make", "1"], Asked::Make(1)),
    (&["make", "3"], Asked::Make(3)),
    (&["make", "999999"], Asked::Make(999_999)),
    (&["make", "1000000"], Asked::Make(1_000_000)),
    (&["make", "0000001"], Asked::Make(1)),
];

/// Command lines that have no accepted form.
const REFUSED: [&[&str]; 41] = [
    &[],
    &[""],
    &["Replay"],
    &["replay "],
    &["--replay"],
    &["help"],
    &["--help"],
    &["-h"],
    &["--version"],
    &["replay", "collab"],
    &["replay", "--"],
    &["--", "replay"],
    &["replay", ""],
    &["collab", "x"],
    &["make"],
    &["make", ""],
    &["make", "0"],
    &["make", "0000000"],
    &["make", "00000001"],
    &["make", "1000001"],
    &["make", "9999999"],
    &["make", "+3"],
    &["make", "-3"],
    &["make", " 3"],
    &["make", "3 "],
    &["make", "3a"],
    &["make", "٣"],
    &["make", "--", "3"],
    &["make", "3", "3"],
    &["edit", "f", "0", "5"],
    &["edit", "f", "5", "501"],
    &["edit", "f", "0005", "5"],
    &["edit", "", "5", "5"],
    &["edit", "-f", "5", "5"],
    &["edit", "f", "5"],
    &["edit", "f", "5", "+5"],
    &["edit", "f", "+5", "5"],
    &["edit", "f", "5", "5", "5"],
    &["edit", "-", "5", "5"],
    &["edit", "--", "f", "5", "5"],
    &["rep"],
];

#[test]
fn each_form_is_accepted(rt: HostRuntime) -> Result<(), Fail> {
    for (words, want) in ACCEPTED {
        assert!(rt; read(rt.alloc(), words)? == want);
    }
    Ok(())
}

#[test]
fn other_forms_are_refused(rt: HostRuntime) -> Result<(), Fail> {
    for words in REFUSED {
        assert!(rt; read(rt.alloc(), words)? == Asked::Nothing);
    }
    Ok(())
}
