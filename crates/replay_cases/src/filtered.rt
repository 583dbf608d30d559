// Filters and extenders in scripts.
use crate::talking::talks;
use std::test::Fail;

#[test]
fn a_filter_appends_a_line_end(rt: HostRuntime) -> Result<(), Fail> {
    let declared = [
        r#"{"input":{"name":"ends","facet":"transactionFilter","value":3}}"#,
        r#"{"input":{"name":"notes","facet":"transactionExtender","value":3}}"#,
        r#"{"field":{"name":"seen","create":1,"update":3,"listens":["note"]}}"#,
    ];
    let start = r#"{"start":{"extensions":["ends","notes","seen"]}}"#;
    let lines = [
        (start, r#"{"ok":{"length":0}}"#),
        (
            r#"{"update":[{"changes":[{"from":0,"insert":"a"}]}]}"#,
            r#"{"ok":{"length":2}}"#,
        ),
        (r#"{"text":{}}"#, r#"{"ok":"a\n"}"#),
        (r#"{"get":{"name":"seen"}}"#, r#"{"ok":0}"#),
        (start, r#"{"ok":{"length":0}}"#),
        (
            r#"{"update":[{"changes":[{"from":0,"insert":"a"}],"filter":false}]}"#,
            r#"{"ok":{"length":1}}"#,
        ),
        (r#"{"text":{}}"#, r#"{"ok":"a"}"#),
        (r#"{"get":{"name":"seen"}}"#, r#"{"ok":0}"#),
    ];
    assert!(rt; talks(rt.alloc(), &declared, &lines)?);
    Ok(())
}

#[test]
fn a_filter_limits_the_length(rt: HostRuntime) -> Result<(), Fail> {
    let declared = [
        r#"{"input":{"name":"limits","facet":"transactionFilter","value":4}}"#,
        r#"{"input":{"name":"four","facet":"filterData","value":4}}"#,
    ];
    let lines = [
        (
            r#"{"start":{"doc":"abc","extensions":["limits","four"]}}"#,
            r#"{"ok":{"length":3}}"#,
        ),
        (
            r#"{"update":[{"changes":[{"from":3,"insert":"de"}]}]}"#,
            r#"{"ok":{"length":3}}"#,
        ),
        (
            r#"{"update":[{"changes":[{"from":3,"insert":"d"}]}]}"#,
            r#"{"ok":{"length":4}}"#,
        ),
    ];
    assert!(rt; talks(rt.alloc(), &declared, &lines)?);
    Ok(())
}
