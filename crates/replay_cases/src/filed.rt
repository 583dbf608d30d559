// Files in scripts.
use crate::replaying::{replayed, sink, source, store};
use cm_outside::Status;
use cm_plain::Str;
use session::LIMIT;
use std::alloc::{AllocError, Global};
use std::test::Fail;

/// Whether a run over these lines, where the file `f` has these bytes and the store calls of these numbers fail, ends so and writes
/// this, and the file `g` has these bytes then.
fn files_are(
    alloc: Global,
    lines: &str,
    store_calls: (&[u8], &[u64]),
    want: (Status, &str),
    saved: Option<&[u8]>,
) -> Result<bool, AllocError> {
    let mut source = source(alloc, lines.as_bytes(), 1_000, &[])?;
    let mut sink = sink(alloc, &[])?;
    let mut store = store(alloc, store_calls.1)?;
    store.put(&Str::of_text(alloc, "f")?, store_calls.0)?;
    let status = replayed(alloc, LIMIT, &mut source, &mut sink, &mut store)?;
    let found = store.bytes(&Str::of_text(alloc, "g")?);
    Ok(status == want.0 && sink.bytes() == want.1.as_bytes() && found == saved)
}

const FILE: &[u8] = b"x\r\ny";

#[test]
fn a_file_is_opened_and_saved(rt: HostRuntime) -> Result<(), Fail> {
    let lines = "{\"open\":{\"file\":\"f\"}}\n{\"save\":{\"file\":\"g\"}}\n";
    let want = "{\"ok\":{\"length\":3}}\n{\"ok\":{\"bytes\":3}}\n";
    assert!(rt;
        files_are(
            rt.alloc(),
            lines,
            (FILE, &[]),
            (Status::Ok, want),
            Some(b"x\ny")
        )?
    );
    Ok(())
}

#[test]
fn a_save_has_its_separator(rt: HostRuntime) -> Result<(), Fail> {
    let lines =
        "{\"input\":{\"name\":\"crlf\",\"facet\":\"saveSeparator\",\"value\":\"\\r\\n\"}}\n{\"open\":{\"file\":\"f\",\"extensions\":[\"crlf\"]}}\n{\"save\":{\"file\":\"g\"}}\n";
    let want = "{\"ok\":{}}\n{\"ok\":{\"length\":3}}\n{\"ok\":{\"bytes\":4}}\n";
    assert!(rt;
        files_are(
            rt.alloc(),
            lines,
            (FILE, &[]),
            (Status::Ok, want),
            Some(FILE)
        )?
    );
    Ok(())
}

#[test]
fn a_missing_file_is_refused_and_a_fault_ends_the_run(rt: HostRuntime) -> Result<(), Fail> {
    let alloc = rt.alloc();
    let lines = "{\"open\":{\"file\":\"h\"}}\n{\"save\":{\"file\":\"g\"}}\n";
    let want =
        "{\"no\":{\"code\":\"FileMissing\",\"name\":\"h\"}}\n{\"no\":{\"code\":\"NoSession\"}}\n";
    assert!(rt; files_are(alloc, lines, (FILE, &[]), (Status::Ok, want), None)?);
    assert!(rt; files_are(alloc, lines, (FILE, &[0]), (Status::StoreFault, ""), None)?);
    let open = "{\"open\":{\"file\":\"f\"}}\n";
    let no_text = "{\"no\":{\"code\":\"FileNotUtf8\",\"name\":\"f\"}}\n";
    assert!(rt; files_are(alloc, open, (b"\xff", &[]), (Status::Ok, no_text), None)?);
    let both = "{\"open\":{\"file\":\"f\"}}\n{\"save\":{\"file\":\"g\"}}\n";
    let first = "{\"ok\":{\"length\":3}}\n";
    assert!(rt; files_are(alloc, both, (FILE, &[1]), (Status::StoreFault, first), None)?);
    Ok(())
}
