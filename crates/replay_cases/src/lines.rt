use crate::replaying::{joined, replies};
use std::alloc::{AllocError, Global};
use std::test::Fail;

#[test]
fn lines_are_answered(rt: HostRuntime) -> Result<(), Fail> {
    let cases = [
        ("", ""),
        (
            "[]\n",
            "{\"no\":{\"code\":\"NotCommand\",\"field\":\"\"}}\n",
        ),
        (
            "{\"txt\":{}}\n",
            "{\"no\":{\"code\":\"NotCommand\",\"field\":\"txt\"}}\n",
        ),
        ("{\"text\":{}}\n", "{\"no\":{\"code\":\"NoSession\"}}\n"),
        ("{\"update\":[]}\n", "{\"no\":{\"code\":\"NoSession\"}}\n"),
        (
            "{\"update\":[{\"chnges\":[]}]}\n",
            "{\"no\":{\"code\":\"BadValue\",\"field\":\"chnges\"}}\n",
        ),
        (
            "{\"update\":[{},1]}\n",
            "{\"no\":{\"code\":\"BadValue\",\"field\":\"update\"}}\n",
        ),
        (
            "{\"update\":[{\"changes\":[1,{}]}]}\n",
            "{\"no\":{\"code\":\"BadValue\",\"field\":\"changes\"}}\n",
        ),
        (
            "{\"update\":[{\"changes\":[{}]}]}\n",
            "{\"no\":{\"code\":\"BadValue\",\"field\":\"from\"}}\n",
        ),
        (
            "{\"start\":{\"doc\":1}}\n",
            "{\"no\":{\"code\":\"BadValue\",\"field\":\"doc\"}}\n",
        ),
        ("\n", "{\"no\":{\"code\":\"NotJson\"}}\n"),
        ("{\"upd", "{\"no\":{\"code\":\"NotJson\"}}\n"),
        (
            "{\"start\":{\"doc\":\"a\\r\\nb\\rc\"}}\n{\"update\":[{\"changes\":[{\"from\":1,\"to\":4,\"insert\":\"\\r\\n\"}]}]}\n{\"text\":{}}\n",
            "{\"ok\":{\"length\":5}}\n{\"ok\":{\"length\":3}}\n{\"ok\":\"a\\nc\"}\n",
        ),
        (
            "{\"start\":{\"doc\":\"abc\"}}\n{\"update\":[{\"changes\":[{\"from\":4}]}]}\n{\"text\":{}}\n{\"update\":[{}]}\n",
            "{\"ok\":{\"length\":3}}\n{\"no\":{\"code\":\"BadRange\",\"from\":4,\"index\":0,\"len\":3,\"to\":4}}\n{\"ok\":\"abc\"}\n{\"ok\":{\"length\":3}}\n",
        ),
    ];
    for (lines, want) in cases {
        assert!(rt;
            replies(rt.alloc(), lines.as_bytes(), want.as_bytes())?,
            "{lines}"
        );
    }
    Ok(())
}

#[test]
fn bytes_that_are_no_text_are_refused(rt: HostRuntime) -> Result<(), Fail> {
    let want = b"{\"no\":{\"code\":\"NotUtf8\"}}\n".as_slice();
    assert!(rt; replies(rt.alloc(), b"\xff\n", want)?);
    Ok(())
}

/// Whether a line of `text` with so many spaces after it, and an empty line, are answered so.
fn padded_line_is_answered(alloc: Global, spaces: usize, want: &str) -> Result<bool, AllocError> {
    let mut input = Vec::from_slice(alloc, b"{\"text\":{}}")?;
    let padding = vec![in alloc; b' '; spaces]?;
    input.extend_from_slice(padding.as_slice())?;
    input.extend_from_slice(b"\n\n")?;
    replies(alloc, input.as_slice(), want.as_bytes())
}

#[test]
fn a_line_too_long_is_passed_over(rt: HostRuntime) -> Result<(), Fail> {
    let cases = [
        (
            1_048_565,
            "{\"no\":{\"code\":\"NoSession\"}}\n{\"no\":{\"code\":\"NotJson\"}}\n",
        ),
        (
            1_048_566,
            "{\"no\":{\"code\":\"LineTooLong\"}}\n{\"no\":{\"code\":\"NotJson\"}}\n",
        ),
    ];
    for (spaces, want) in cases {
        assert!(rt; padded_line_is_answered(rt.alloc(), spaces, want)?);
    }
    Ok(())
}

/// Whether a line is refused for this member.
fn is_refused_for(alloc: Global, line: &str, field: &str) -> Result<bool, AllocError> {
    let mut want = joined(alloc, "{\"no\":{\"code\":\"BadValue\",\"field\":\"", field)?;
    want.extend_from_slice(b"\"}}\n")?;
    replies(alloc, line.as_bytes(), want.as_slice())
}

#[test]
fn fields_of_specs_are_refused(rt: HostRuntime) -> Result<(), Fail> {
    let cases = [
        (r#"{"update":[{"main":-1,"selection":1}]}"#, "selection"),
        (r#"{"update":[{"main":-1}]}"#, "main"),
        (r#"{"update":[{"selection":[[0,0,0]]}]}"#, "selection"),
        (r#"{"update":[{"annotations":[1]}]}"#, "annotations"),
        (r#"{"update":[{"annotations":[{"value":1}]}]}"#, "type"),
        (
            r#"{"update":[{"annotations":[{"type":"a","value":{}}]}]}"#,
            "value",
        ),
        (
            r#"{"update":[{"annotations":[{"type":"a","value":[1.5]}]}]}"#,
            "value",
        ),
        (r#"{"update":[{"userEvent":1,"filter":1}]}"#, "userEvent"),
        (r#"{"update":[{"sequential":0,"filter":1}]}"#, "sequential"),
        (r#"{"update":[{"filter":null}]}"#, "filter"),
        (r#"{"update":[{"effects":1}]}"#, "effects"),
        (r#"{"start":{"main":0,"selection":0}}"#, "selection"),
        (r#"{"selection":1}"#, "selection"),
    ];
    for (line, field) in cases {
        assert!(rt; is_refused_for(rt.alloc(), line, field)?, "{line}");
    }
    Ok(())
}
