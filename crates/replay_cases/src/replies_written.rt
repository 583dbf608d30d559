// Replies that are written.
use crate::script_lines::carried;
use cm_plain::Str;
use decoration::Kind;
use listed::Listed;
use replies::{
    Answer, Reply, Shown, ShownCursor, ShownRange, ShownRun, ShownScreen, Summary, reply_text,
};
use script::{ExtensionRefusal, FileRefusal, Refusal, WindowRefusal};
use selection::{Range, Selection};
use std::alloc::{AllocError, Global};
use std::test::Fail;

/// Whether a reply is written so.
fn is_written(alloc: Global, reply: &Reply, want: &str) -> Result<bool, AllocError> {
    let text = reply_text(alloc, reply)?;
    Ok(text.as_str() == want)
}

fn answered_selection(alloc: Global, ranges: &[Range], main: usize) -> Option<Reply> {
    let selection = Selection::create(alloc, ranges, main).ok()?;
    Some(Reply::Ok(Answer::Selection(selection)))
}

#[test]
fn selections_are_answered(rt: HostRuntime) -> Result<(), Fail> {
    let ranges = [Range { anchor: 0, head: 1 }, Range { anchor: 4, head: 3 }];
    let reply = answered_selection(rt.alloc(), &ranges, 1).ok_or("no selection")?;
    let want = "{\"ok\":{\"main\":1,\"ranges\":[[0,1],[4,3]]}}\n";
    assert!(rt; is_written(rt.alloc(), &reply, want)?);
    Ok(())
}

#[test]
fn replies_are_written(rt: HostRuntime) -> Result<(), Fail> {
    let cases = [
        (
            Reply::No(Refusal::BadMain { main: 1, count: 2 }),
            "{\"no\":{\"code\":\"BadMain\",\"count\":2,\"main\":1}}\n",
        ),
        (
            Reply::No(Refusal::SelectionOutside { pos: 9, len: 4 }),
            "{\"no\":{\"code\":\"SelectionOutside\",\"len\":4,\"pos\":9}}\n",
        ),
        (
            Reply::No(Refusal::UnknownEffect { id: 7 }),
            "{\"no\":{\"code\":\"UnknownEffect\",\"id\":7}}\n",
        ),
        (
            Reply::No(Refusal::UnknownCompartment { id: 7 }),
            "{\"no\":{\"code\":\"UnknownCompartment\",\"id\":7}}\n",
        ),
        (
            Reply::No(Refusal::LengthMismatch { want: 3, have: 2 }),
            "{\"no\":{\"code\":\"LengthMismatch\",\"have\":2,\"want\":3}}\n",
        ),
        (
            Reply::No(Refusal::TooLong {
                len: 16777217,
                max: 16777216,
            }),
            "{\"no\":{\"code\":\"TooLong\",\"len\":16777217,\"max\":16777216}}\n",
        ),
        (Reply::Ok(Answer::Length(40)), "{\"ok\":{\"length\":40}}\n"),
    ];
    for (reply, want) in &cases {
        assert!(rt; is_written(rt.alloc(), reply, *want)?);
    }
    Ok(())
}

/// Whether an answer is written so.
fn is_answer(alloc: Global, answer: Answer, want: &str) -> Result<bool, AllocError> {
    is_written(alloc, &Reply::Ok(answer), want)
}

#[test]
fn counts_are_answered(rt: HostRuntime) -> Result<(), Fail> {
    let done = Answer::Done {
        done: true,
        length: 3,
    };
    let summary = Answer::Summary(Summary {
        length: 5,
        lines: 4294967296,
        rows: 24,
        transactions: 2,
    });
    let cases = [
        (Answer::Nothing, "{\"ok\":{}}\n"),
        (done, "{\"ok\":{\"done\":true,\"length\":3}}\n"),
        (Answer::Bytes(7), "{\"ok\":{\"bytes\":7}}\n"),
        (
            summary,
            "{\"ok\":{\"length\":5,\"lines\":4294967296,\"rows\":24,\"transactions\":2}}\n",
        ),
        (
            Answer::Value(Shown::History { done: 2, undone: 1 }),
            "{\"ok\":{\"done\":2,\"undone\":1}}\n",
        ),
        (Answer::Value(Shown::Absent), "{\"ok\":{\"absent\":true}}\n"),
    ];
    for (answer, want) in cases {
        assert!(rt; is_answer(rt.alloc(), answer, want)?);
    }
    Ok(())
}

/// Whether a value is answered as it was read.
fn is_same_again(alloc: Global, value: &str) -> Result<bool, AllocError> {
    let want = format!(in alloc; "{{\"ok\":{value}}}\n")?;
    match carried(alloc, value)? {
        Some(plain) => is_answer(alloc, Answer::Value(Shown::Plain(plain)), want.as_str()),
        None => Ok(false),
    }
}

#[test]
fn plain_values_are_answered_as_they_are_read(rt: HostRuntime) -> Result<(), Fail> {
    let cases = [
        "null",
        "true",
        "-9223372036854775808",
        "9223372036854775807",
        "\"a\\n\\\"\u{e9}\u{1f600}\"",
        "[]",
        "[1,[\"b\",[null]],false]",
        "[[[[[[[[[[[[[[[[]]]]]]]]]]]]]]]]",
    ];
    for value in cases {
        assert!(rt; is_same_again(rt.alloc(), value)?, "{value}");
    }
    Ok(())
}

/// The ranges of a set.
fn set_of(alloc: Global, ranges: &[ShownRange]) -> Result<Listed<ShownRange>, AllocError> {
    let mut set = Listed::empty(alloc);
    for range in ranges {
        set.push(*range)?;
    }
    Ok(set)
}

/// Whether these ranges are answered so.
fn is_set(alloc: Global, ranges: &[ShownRange], want: &str) -> Result<bool, AllocError> {
    let set = set_of(alloc, ranges)?;
    is_answer(alloc, Answer::Value(Shown::Ranges(set)), want)
}

/// Whether two layers, these ranges and none, are answered so.
fn is_layers(alloc: Global, ranges: &[ShownRange], want: &str) -> Result<bool, AllocError> {
    let mut sets = Listed::empty(alloc);
    sets.push(set_of(alloc, ranges)?)?;
    sets.push(set_of(alloc, &[])?)?;
    is_answer(alloc, Answer::Value(Shown::Layers(sets)), want)
}

#[test]
fn decorations_are_answered(rt: HostRuntime) -> Result<(), Fail> {
    let ranges = [
        ShownRange {
            from: 0,
            kind: Kind::Line,
            to: 0,
        },
        ShownRange {
            from: 1,
            kind: Kind::Mark,
            to: 4,
        },
    ];
    let want =
        "{\"ok\":[{\"from\":0,\"kind\":\"line\",\"to\":0},{\"from\":1,\"kind\":\"mark\",\"to\":4}]}\n";
    assert!(rt; is_set(rt.alloc(), &ranges, want)?);
    let one = "{\"ok\":[[{\"from\":0,\"kind\":\"line\",\"to\":0}],[]]}\n";
    assert!(rt; is_layers(rt.alloc(), &ranges[..1], one)?);
    Ok(())
}

/// A row of these runs, each a text with its codes.
fn row_of(alloc: Global, runs: &[(&str, &str)]) -> Result<Listed<ShownRun>, AllocError> {
    let mut row = Listed::empty(alloc);
    for (text, codes) in runs {
        row.push(ShownRun {
            text: Str::of_text(alloc, *text)?,
            codes: Str::of_text(alloc, *codes)?,
        })?;
    }
    Ok(row)
}

/// Whether a screen of a row and an empty one is answered so.
fn is_screen(
    alloc: Global,
    cursor: ShownCursor,
    runs: &[(&str, &str)],
    want: &str,
) -> Result<bool, AllocError> {
    let mut rows = Listed::empty(alloc);
    rows.push(row_of(alloc, runs)?)?;
    rows.push(row_of(alloc, &[])?)?;
    is_answer(alloc, Answer::Screen(ShownScreen { cursor, rows }), want)
}

#[test]
fn screens_are_answered(rt: HostRuntime) -> Result<(), Fail> {
    let cursor = ShownCursor { row: 1, column: 0 };
    let runs = [("a ", ""), ("b", "1;31")];
    let want = "{\"ok\":{\"cursor\":[1,0],\"rows\":[[[\"a \",\"\"],[\"b\",\"1;31\"]],[]]}}\n";
    assert!(rt; is_screen(rt.alloc(), cursor, &runs, want)?);
    Ok(())
}

/// Whether a refusal is written so.
fn is_refusal(alloc: Global, refusal: Refusal, want: &str) -> Result<bool, AllocError> {
    is_written(alloc, &Reply::No(refusal), want)
}

/// A refusal of a compartment that has two slots.
fn two_slots(
    alloc: Global,
    compartment: &str,
    first: &str,
    second: &str,
) -> Result<Refusal, AllocError> {
    let compartment = Str::of_text(alloc, compartment)?;
    let first = Str::of_text(alloc, first)?;
    let second = Str::of_text(alloc, second)?;
    Ok(Refusal::Extensions(ExtensionRefusal::DuplicateCompartment {
        compartment,
        first,
        second,
    }))
}

/// The names in order.
fn names_of(alloc: Global, names: &[&str]) -> Result<Listed<Str>, AllocError> {
    let mut list = Listed::empty(alloc);
    for name in names {
        list.push(Str::of_text(alloc, *name)?)?;
    }
    Ok(list)
}

#[test]
fn refusals_of_extensions_are_written(rt: HostRuntime) -> Result<(), Fail> {
    let slots = two_slots(rt.alloc(), "c", "s", "t")?;
    let want =
        "{\"no\":{\"code\":\"DuplicateCompartment\",\"compartment\":\"c\",\"first\":\"s\",\"second\":\"t\"}}\n";
    assert!(rt; is_refusal(rt.alloc(), slots, want)?);
    let path = names_of(rt.alloc(), &["s", "t"])?;
    let turn = Refusal::Extensions(ExtensionRefusal::CompartmentLoop { path });
    let want = "{\"no\":{\"code\":\"CompartmentLoop\",\"path\":[\"s\",\"t\"]}}\n";
    assert!(rt; is_refusal(rt.alloc(), turn, want)?);
    let members = names_of(rt.alloc(), &["f"])?;
    let circle = Refusal::Extensions(ExtensionRefusal::Cycle { members });
    let want = "{\"no\":{\"code\":\"Cycle\",\"members\":[\"f\"]}}\n";
    assert!(rt; is_refusal(rt.alloc(), circle, want)?);
    Ok(())
}

#[test]
fn refusals_of_files_and_windows_are_written(rt: HostRuntime) -> Result<(), Fail> {
    let name = Str::of_text(rt.alloc(), "f")?;
    let missing = Refusal::File(FileRefusal::FileMissing { name });
    let want = "{\"no\":{\"code\":\"FileMissing\",\"name\":\"f\"}}\n";
    assert!(rt; is_refusal(rt.alloc(), missing, want)?);
    let rows = Refusal::Window(WindowRefusal::BadRows { n: 501 });
    let want = "{\"no\":{\"code\":\"BadRows\",\"n\":501}}\n";
    assert!(rt; is_refusal(rt.alloc(), rows, want)?);
    let cols = Refusal::Window(WindowRefusal::BadCols { n: 0 });
    let want = "{\"no\":{\"code\":\"BadCols\",\"n\":0}}\n";
    assert!(rt; is_refusal(rt.alloc(), cols, want)?);
    Ok(())
}
