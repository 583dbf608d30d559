use crate::replaying::{joined, replies};
use std::alloc::{AllocError, Global};
use std::test::Fail;

/// Starts a document of three characters.
const ABC: &str = "{\"start\":{\"doc\":\"abc\"}}\n";

#[test]
fn changes_of_one_spec_are_folded(rt: HostRuntime) -> Result<(), Fail> {
    let cases = [
        (
            r#"{"start":{"doc":"abc"}}
{"update":[{"changes":[{"from":3,"insert":"!"},{"from":0,"to":1}]}]}
{"text":{}}"#,
            r#"{"ok":{"length":3}}
{"ok":{"length":3}}
{"ok":"bc!"}
"#,
        ),
        (
            r#"{"start":{"doc":"abc"}}
{"update":[{"changes":[{"from":0,"insert":"x"},{"from":2,"to":1}]}]}
{"text":{}}"#,
            r#"{"ok":{"length":3}}
{"no":{"code":"BadRange","from":2,"index":1,"len":3,"to":1}}
{"ok":"abc"}
"#,
        ),
    ];
    for (lines, want) in cases {
        assert!(rt;
            replies(rt.alloc(), lines.as_bytes(), want.as_bytes())?,
            "{lines}"
        );
    }
    Ok(())
}

/// Whether these lines, after one that starts a document of three characters, are answered so.
fn replies_from_abc(alloc: Global, lines: &str, want: &str) -> Result<bool, AllocError> {
    let input = joined(alloc, ABC, lines)?;
    replies(alloc, input.as_slice(), want.as_bytes())
}

#[test]
fn specs_are_merged(rt: HostRuntime) -> Result<(), Fail> {
    let cases = [
        (
            r#"{"update":[{"changes":[{"from":0,"insert":"x"}]},{"changes":[{"from":2,"to":1}]}]}
{"text":{}}"#,
            r#"{"ok":{"length":3}}
{"no":{"code":"BadRange","from":2,"index":0,"len":3,"to":1}}
{"ok":"abc"}
"#,
        ),
        (
            r#"{"update":[{"changes":[{"from":0,"insert":"x"}]},{"changes":[{"from":1,"insert":"y"}]}]}
{"text":{}}"#,
            r#"{"ok":{"length":3}}
{"ok":{"length":5}}
{"ok":"xaybc"}
"#,
        ),
        (
            r#"{"update":[{"changes":[{"from":0,"insert":"x"}]},{"changes":[{"from":1,"insert":"y"}],"sequential":true}]}
{"text":{}}"#,
            r#"{"ok":{"length":3}}
{"ok":{"length":5}}
{"ok":"xyabc"}
"#,
        ),
        (
            r#"{"update":[{"changes":[{"from":0,"insert":"x"}],"selection":[[1,1]]},{"changes":[{"from":0,"insert":"yy"}]}]}
{"text":{}}
{"selection":{}}"#,
            r#"{"ok":{"length":3}}
{"ok":{"length":6}}
{"ok":"xyyabc"}
{"ok":{"main":0,"ranges":[[1,1]]}}
"#,
        ),
        (
            r#"{"update":[{"annotations":[{"type":"a","value":[1,null,"x",[true]]}],"userEvent":"input","filter":false}]}
{"update":[]}"#,
            r#"{"ok":{"length":3}}
{"ok":{"length":3}}
{"ok":{"length":3}}
"#,
        ),
    ];
    for (lines, want) in cases {
        assert!(rt; replies_from_abc(rt.alloc(), lines, want)?, "{lines}");
    }
    Ok(())
}
